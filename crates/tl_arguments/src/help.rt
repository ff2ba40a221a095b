// What `treedb COMMAND --help` says below the options.

pub const HELP: &str = "\
A refusal is one line on standard output, {\"error\":[number,..]}, and a message on standard error.
Exit status: 0 done, 1 refused, 2 a mistake on the command line, 3 a file that can't be read or written, or a port
or socket that can't be opened, 4 memory.
Help on a command: treedb COMMAND --help. What a number means: treedb explain NUMBER";

pub const ALONE_HELP: &str = "\
Example: treedb alone --tree one-node.json --proc add.tlp --args '[0,3]'
prints {\"reply\":[8],\"steps\":7}, and then the tree as JSON. The files are not changed.
treedb alone --tree t.json --proc stock.tdb --name shift runs one procedure of a text; of a text with only one, --name is left out.
Exit status: 0 done, 1 refused, 2 a mistake on the command line, 3 a file that can't be read, 4 memory.";

pub const ASM_HELP: &str = "\
Example: treedb asm walk.asm walk.tlp
prints {\"count\":10}. A text that is refused is told by its line, and nothing is written.
Exit status: 0 done, 1 refused, 2 a mistake on the command line, 3 a file that can't be read or written, 4 memory.";

pub const CHECK_HELP: &str = "\
Example: treedb check walk.asm
prints {\"bounds\":{\"emits\":1,\"locks\":13,\"steps\":54}} of a procedure's assembler text or container, whatever the arguments and the
tree. Of a file whose name ends with .tdb, a text of the procedure language, it prints [[\"shift\",{\"bounds\":{..}}],..], each procedure.
For a text that is refused the line is shown, with a caret under the place; so is the instruction that the verifier refuses.
What a text of the procedure language doesn't need is shown in the same way, as a warning.
With --watch the file is checked again whenever it changes; standard error says where each check begins and ends.
Exit status: 0 done, 1 refused, 2 a mistake on the command line, 3 a file that can't be read, 4 memory.";

pub const AUDIT_HELP: &str = "\
Example: treedb audit trail.json
prints {\"order\":[..]}, the order in which the calls would do the same alone, where nothing is wrong with the trail.
Else it prints what is wrong first: {\"error\":[711,event]}, a rule broken; 712, a lock of a node that another call holds;
713, another record found than was left; {\"error\":[714,call]}, a call that does not do what its procedure does; 715, one
that isn't done; 717, another reply; {\"error\":[716,node]}, another record in the end. On a terminal its progress is shown.
A file that is a list is a chain, one trail an epoch: this prints {\"orders\":[..]}, or {\"error\":[718,trail]} where a trail
doesn't take over where the one before it ends, or {\"error\":[719,trail,..]} with what is wrong with a trail.
Of several files, each has to go on where the one before it ends: treedb audit 0.json 1.json prints {\"orders\":[..]} for each file,
or what is wrong with it, and names it. So does treedb audit FOLDER with the files 0.json, 1.json and so on of a folder. Between
two files a server may have replaced procedures, which standard error names; with --same-procedures that is {\"error\":[720]}.
Of the file of a store, which no server has open, it takes the calls again, and prints what it would print of the files that export
writes.
With --explain a sentence on standard error says what stands where something is wrong, and what should stand there.
Exit status: 0 done, 1 refused, 2 a mistake on the command line, 3 a file that can't be read, 4 memory.";

pub const COMPILE_HELP: &str = "\
Example: treedb compile stock.tdb shift.tlp --proc shift
prints {\"bounds\":{\"emits\":2,\"locks\":5,\"steps\":36},\"count\":36}. A text that is refused is told by line and column, with a
caret under the place, and nothing is written.
Exit status: 0 done, 1 refused, 2 a mistake on the command line, 3 a file that can't be read or written, 4 memory.";

pub const PROCS_HELP: &str = "\
Example: treedb procs stock.tdb
prints [[\"shift\",\"version 2\\narity 4\\n..\"],..], each procedure with its assembler text, as a script's procs takes them.
Exit status: 0 done, 1 refused, 2 a mistake on the command line, 3 a file that can't be read, 4 memory.";

pub const DIS_HELP: &str = "\
Example: treedb dis walk.tlp
prints a text that asm turns into the same container.
Exit status: 0 done, 1 refused, 2 a mistake on the command line, 3 a file that can't be read, 4 memory.";

pub const DRIVE_HELP: &str = "\
Example: treedb drive --tree three.json moves.json
prints {\"trace\":[..]}, what came of each move; {\"order\":[..]}, the order in which the calls would do the same alone,
or {\"error\":[651,call]} where a call is unfinished; and then the tree as JSON. With --trail the calls, what they did and
the records in the end are written to a file, which treedb audit checks. The other files are not changed.
Exit status: 0 done, 1 refused, 2 a mistake on the command line, 3 a file that can't be read or written, 4 memory.";

pub const EXPLAIN_HELP: &str = "\
Example: treedb explain 407
prints when the verifier refuses a procedure with [407,position,register], and what to do then.
Exit status: 0 done, 2 a number that no fault has, or another mistake on the command line, 3 standard output can't be
written, 4 memory.";

pub const EXPORT_HELP: &str = "\
Example: treedb export things.db trails
takes all calls again that the store things.db has, and writes what they did into the folder trails, which has to be there and may
have no such files: 0.json, 1.json and so on. It prints {\"epochs\":E,\"files\":F}. treedb audit trails checks the files. A new file begins
where the tree has grown, or after 256 epochs. No server may have the store open, and nothing is stored in it.
With --until E it writes no trails: tree.json of treedb export things.db tree.json --until 16 has the tree as it was after epoch 16 of the
store, and this prints {\"epoch\":16,\"nodes\":N}. treedb serve --tree tree.json goes on from there.
Exit status: 0 done, 1 refused, 2 a mistake on the command line, 3 a file that can't be read or written, 4 memory.";

pub const MIGRATE_HELP: &str = "\
Example: treedb migrate add.tlp add2.tlp
prints {\"count\":7}, and writes the same procedure as one of version 2. A container that is of version 2 already is refused.
Exit status: 0 done, 1 refused, 2 a mistake on the command line, 3 a file that can't be read or written, 4 memory.";

pub const RUN_HELP: &str = "\
Example: treedb run --tree fork.json --workers 2 calls.json
prints {\"batch\":[..]}, what came of each call, {\"call\":0,\"reply\":[8]} or {\"error\":[601]}; {\"order\":[..]}, the order in
which the calls would do the same alone; and then the tree as JSON. Two runs may take the calls in another order. With
--trail the calls, what they did and the records in the end are written to a file, which treedb audit checks. The other
files are not changed. A script {\"epochs\":[[call,..],..],\"procs\":[..]} runs one list of calls after another, and seals
the epoch between two: then there is a {\"batch\":[..]} for each, {\"orders\":[..]} tells the order in each epoch, and the file
is the list of the epochs' trails.
Exit status: 0 done, 1 refused, 2 a mistake on the command line, 3 a file that can't be read or written, 4 memory.";

pub const SERVE_HELP: &str = "\
Example: treedb serve --tree one-node.json --port 7878 --control 7879
says on standard error that it listens on 127.0.0.1:7878. Then, from another terminal,
    nc -N 127.0.0.1 7878 < requests.txt
sends the lines of a file, each a request: {\"op\":\"register\",\"name\":\"add\",\"asm\":\"arity 2\\n..\"},
{\"op\":\"call\",\"proc\":\"add\",\"args\":[0,3]}, {\"op\":\"batch\",\"calls\":[[\"add\",[0,3]],..],\"workers\":2},
{\"op\":\"grow\",\"parents\":[0]}, {\"op\":\"seal\"} or {\"op\":\"close\"}. Each is answered by a line, in order.
treedb stop --port 7879 ends it: each line that was read is answered, the connections are ended, and this prints
{\"generations\":n} and the tree as JSON. An epoch that is full, after 4,096 calls, is sealed, and the next goes on with the tree as
it is. After G epochs a new generation begins. With --trails FOLDER a file there has what the calls of a generation did, 0.json,
1.json and so on, which is written while lines are answered; treedb audit FOLDER checks them.
With --store FILE all is stored before it is answered: the first start makes FILE of the tree, and later ones, without --tree, go on
with what it has, also after a crash. With --store FOLDER/ the store is a folder of volumes, 0.db and so on: after as many calls as --volume
says, or when treedb volume asks for it, a new one begins, and those before it never change again: copy, pack or move them as you like. With
--snapshots FOLDER, treedb snapshot has the store copied there.
With --connections C it ends by itself after so many connections, and clients seal full epochs: after 4,096 calls each call
is refused until one does. Then this prints {\"order\":[..]}, the order in which the calls would do the same alone, or
{\"orders\":[..]}, the order in each epoch, and the tree. With --trail what the calls did and the records in the end are
written to a file, which treedb audit checks. --seal itself and --seal by-hand choose between the two.
With --frozen nobody registers or replaces procedures, appends nodes or seals through the port, which gets 1101; the control does that
still, as by treedb register and treedb replace. A connection that a browser opens is ended at its first line, and nothing of it is done.
With --idle S a connection ends that sends nothing for S seconds, or takes no answer for so long.
Every user of the machine reaches a port. With --socket PATH in the place of --port, and --control-socket PATH in the place of
--control, the server listens on Unix sockets, and whoever may write their files reaches it: who started it alone, or as --mode says,
660 for the group too. The file of a server that is no more is replaced, any other stays.
Exit status: 0 done, 1 refused, 2 a mistake on the command line, 3 a file that can't be read or written, or a port
or socket that can't be opened, 4 memory.";

pub const SNAPSHOT_HELP: &str = "\
Example: treedb snapshot --port 7879 monday.db
asks the server that was started with --control 7879, --store and --snapshots FOLDER to copy its store into FOLDER/monday.db, and
prints {\"snapshot\":\"monday.db\"} once the copy is whole: one file, which sqlite3 opens and treedb serve --store takes up, with all that was
answered before. Meanwhile no call is answered. Of a store in volumes the server goes on in a new volume, and the one before is copied while
calls are answered. The name is 1 to 64 ASCII letters, digits, _ or -, and then .db; a file that is there isn't replaced. With --socket PATH it asks the server with --control-socket PATH.
Exit status: 0 copied, 1 refused, 2 a mistake on the command line, 3 nobody answers there, or the copy can't be written, 4 memory.";

pub const VOLUME_ABOUT: &str = "Has a server of this machine go on in a new volume of its store";

pub const VOLUME_HELP: &str = "\
Example: treedb volume --port 7879
asks the server that was started with --control 7879 and --store FOLDER/ to go on in a new volume of its store, and prints
{\"volume\":16}, the number of the live one: how many epochs those before it have. FOLDER/16.db is its file. The volumes before it are closed:
they never change again, and SHA256SUMS lists what sha256sum says of them. Where the live one has no call yet, it stays the live one. With
--socket PATH it asks the server with --control-socket PATH.
Exit status: 0 done, 1 refused, 2 a mistake on the command line, 3 nobody answers there, or the volume can't be written, 4 memory.";

pub const REGISTER_HELP: &str = "\
Example: treedb register stock.tdb --port 7879
asks the server that was started with --control 7879 and without --connections to register all procedures of the text, and prints
{\"registered\":[{\"bounds\":{..},\"name\":\"shift\"},..]}. It is for operators: a server that is --frozen does this at its control alone. A text with a
fault is shown as by check, and not sent. With --socket PATH it asks the server with --control-socket PATH.
Exit status: 0 done, 1 refused, 2 a mistake on the command line, 3 nobody answers there, or a file that can't be read, 4 memory.";

pub const REPLACE_HELP: &str = "\
Example: treedb replace stock.tdb --port 7879
asks the server that was started with --control 7879 and without --connections to put all procedures of the text in the place of those with
their names, all or none, and prints {\"replaced\":[{\"bounds\":{..},\"name\":\"shift\"},..]}. It is for operators: a server that is --frozen does
this at its control alone. A text with a fault is shown as by check, and not sent. With --socket PATH it asks the server with
--control-socket PATH.
Exit status: 0 done, 1 refused, 2 a mistake on the command line, 3 nobody answers there, or a file that can't be read, 4 memory.";

pub const STATUS_ABOUT: &str = "Prints what a server of this machine that lasts says of itself";

pub const STATUS_HELP: &str = "\
Example: treedb status --port 7879
asks the server that was started with --control 7879 and without --connections how far it is, and prints
{\"epoch\":E,\"generation\":G,\"calls\":N,\"connections\":C,\"nodes\":M,\"procedures\":P,\"refusals\":R,\"places\":L,\"browsers\":B}: the epoch that
calls belong to now, as their answers name it; the number of the generation, from 0; the calls that were answered with a receipt since
the start; the connections that are open; the tree's nodes; the procedures; the requests and calls that were refused since the start; how
many connections may be open at once; and the connections that a browser opened, which were ended. With --socket PATH it asks the server with --control-socket PATH.
With --wait it asks until a server answers there: a script that has started one goes on once it is ready.
Exit status: 0 done, 2 a mistake on the command line, 3 nobody answers there, or a server that doesn't say, 4 memory.";

pub const STOP_ABOUT: &str = "Asks a server of this machine to answer what it has read, and to end";

pub const STOP_HELP: &str = "\
Example: treedb stop --port 7879
asks the server that was started with --control 7879 to end, and prints {\"stopping\":true}. The server takes up no more
connections, answers each line that it has read whole, and prints the tree. With --socket PATH it asks the server that was started
with --control-socket PATH.
Exit status: 0 asked, 2 a mistake on the command line, 3 nobody answers there, 4 memory.";

pub const VERIFY_HELP: &str = "\
Example: treedb verify walk.tlp
prints {\"bounds\":{\"emits\":1,\"locks\":13,\"steps\":54}}, whatever the arguments and the tree.
Exit status: 0 done, 1 refused, 2 a mistake on the command line, 3 a file that can't be read, 4 memory.";

pub const WIDEN_HELP: &str = "\
Example: treedb widen old.json new.json
prints {\"nodes\":1}, and writes the tree with eight fields a record. Where each record has four, the others are 0.
Exit status: 0 done, 1 refused, 2 a mistake on the command line, 3 a file that can't be read or written, 4 memory.";
