// The command `audit`: one file, or several that go on where the one before them ends.

use crate::failure::Failure;
use crate::program::Program;
use crate::progress::Shown;
use crate::{CliFault, audit_cmd, audit_next_cmd, explain_audit_fault};
use std::fs;
use std::rt::Files;
use tl_file_export::Epochs;
use tl_store_file::FileFault;
use tl_trail::Trail;

/// How trails are audited.
#[derive(Clone, Copy, Debug)]
pub(crate) struct Auditing {
    /// Whether people are told what should stand where something is wrong.
    pub(crate) explains: bool,
    /// Whether a procedure may have no other code than in the file before.
    pub(crate) keeps_procedures: bool,
}

// The number of a generation's file, by its name: `3.json`.
fn number_of(name: &str) -> Option<u64> {
    let digits = name.strip_suffix(".json")?;
    let is_number = digits.bytes().all(|byte| byte.is_ascii_digit());
    if !is_number || (digits.len() > 1 && digits.starts_with('0')) {
        return None;
    }
    digits.parse().ok()
}

impl<'a, R: Files + Print + Eprint + AllocGlobal + Clone + Drop> Program<'a, R> {
    /// What `audit` prints of these files and folders. One file alone is told as it always was, or may be a store; of several each has a line, which
    /// is printed as it comes. Where something is wrong, and it is asked for, people are told what should stand there.
    pub(crate) fn audit<'p, E, X>(
        &self,
        paths: &[&'p str],
        how: Auditing,
        opens: X,
    ) -> Result<String, Failure<'p>>
    where
        E: Epochs + Drop,
        X: Fn(&str) -> Result<E, FileFault> + Drop,
        requires { X.IsAlwaysCallable opens }
    {
        if let [path] = paths {
            if self.is_database(path)? {
                if how.keeps_procedures {
                    let _shown = eprintln!(self.rt;
                        "treedb: {path} is a store: export it, and audit the folder"
                    );
                    return Err(Failure::Refused(CliFault::Replaced));
                }
                return self.audit_store(path, opens);
            }
            if !self.is_folder(path) {
                return self.audit_alone(path, how.explains);
            }
        }
        self.audit_all(paths, how, &opens)
    }

    // The same of several files, or of a folder.
    fn audit_all<'p, E, X>(
        &self,
        paths: &[&'p str],
        how: Auditing,
        opens: &X,
    ) -> Result<String, Failure<'p>>
    where
        E: Epochs + Drop,
        X: Fn(&str) -> Result<E, FileFault> + Drop,
        requires { X.IsAlwaysCallable opens.now }
    {
        let mut before = None;
        for path in paths {
            let volumes = self.volumes_of(path)?;
            if !volumes.is_empty() {
                self.audit_volumes(path, volumes.as_slice(), opens)?;
                before = None;
                continue;
            }
            before = if self.is_folder(path) {
                self.audit_folder(path, before, how)?
            } else {
                Some(self.audit_next(path, before.as_ref(), how)?)
            };
        }
        Ok(String::new(self.rt.alloc()))
    }

    fn is_folder(&self, path: &str) -> bool {
        fs::metadata(self.rt, path).is_ok_and(|metadata| metadata.is_dir())
    }

    fn audit_alone<'p>(&self, path: &'p str, explains: bool) -> Result<String, Failure<'p>> {
        let trail = self.read_file(path)?;
        let mut shown = Shown::new(self.rt, self.is_terminal);
        let answer = audit_cmd(self.rt.alloc(), &trail, &mut shown, self.nodes);
        shown.end();
        if let Err(fault) = &answer {
            self.show_why(&trail, None, *fault, explains);
        }
        answer.map_err(|fault| self.misread(path, &trail, fault))
    }

    // Says to people what stands in the file where something is wrong, and what should, if that is asked for.
    fn show_why(&self, file: &[u8], before: Option<&Trail>, fault: CliFault, explains: bool) {
        if !explains {
            return;
        }
        if let Ok(why) = explain_audit_fault(self.rt.alloc(), file, before, fault, self.nodes) {
            if !why.is_empty() {
                let _shown = eprintln!(self.rt; "treedb: {why}");
            }
        }
    }

    // Audits one file more, which has to go on where the trail before ends, and answers its last trail. Standard error names the file in
    // which something is wrong.
    fn audit_next<'p>(
        &self,
        path: &str,
        before: Option<&Trail>,
        how: Auditing,
    ) -> Result<Trail, Failure<'p>> {
        let file = match self.read_file(path) {
            Ok(file) => file,
            Err(failure) => return Err(self.told(&failure)),
        };
        let mut shown = Shown::new(self.rt, self.is_terminal);
        let answer = audit_next_cmd(self.rt.alloc(), &file, before, &mut shown, self.nodes);
        shown.end();
        match answer {
            Ok(audited) => {
                for name in &audited.replaced {
                    let _shown = eprintln!(self.rt; "treedb: {path}: {name} was replaced");
                }
                if how.keeps_procedures {
                    audited.check_procedures()?;
                }
                match self.rt.print(audited.line.as_str()) {
                    Ok(()) => Ok(audited.last),
                    Err(_) => Err(Failure::Refused(CliFault::Unwritable)),
                }
            }
            Err(fault) => {
                let _shown = eprintln!(self.rt; "treedb: {path}");
                self.show_why(&file, before, fault, how.explains);
                Err(self.misread(path, &file, fault))
            }
        }
    }

    // Tells people of a file with a path of our own making, which the failure can't hold.
    fn told<'p>(&self, failure: &Failure<'_>) -> Failure<'p> {
        if let Failure::Refused(fault) = failure {
            return Failure::Refused(*fault);
        }
        let _shown = eprintln!(self.rt; "treedb: {failure}");
        Failure::Refused(CliFault::Unreadable)
    }

    // Audits the files of a server's generations, by rising number. All from the first one to the last one have to be there.
    fn audit_folder<'p>(
        &self,
        folder: &'p str,
        before: Option<Trail>,
        how: Auditing,
    ) -> Result<Option<Trail>, Failure<'p>> {
        let Some((first, last)) = self.numbers_in(folder)? else {
            let _shown = eprintln!(self.rt; "treedb: {folder} has no file 0.json");
            return Err(Failure::Refused(CliFault::Unreadable));
        };
        let mut before = before;
        for number in first..=last {
            let path = format!(in self.rt.alloc(); "{folder}/{number}.json")?;
            before = Some(self.audit_next(path.as_str(), before.as_ref(), how)?);
        }
        Ok(before)
    }

    /// The least and the greatest number of a file of the folder, if one has a number.
    pub(crate) fn numbers_in<'p>(
        &self,
        folder: &'p str,
    ) -> Result<Option<(u64, u64)>, Failure<'p>> {
        let entries = match fs::read_dir(self.rt, folder) {
            Ok(entries) => entries,
            Err(reason) => return Err(Failure::Unreadable {
                path: folder,
                reason,
            }),
        };
        let mut found: Option<(u64, u64)> = None;
        for entry in entries {
            let entry = match entry {
                Ok(entry) => entry,
                Err(reason) => return Err(Failure::Unreadable {
                    path: folder,
                    reason,
                }),
            };
            if let Some(number) = number_of(entry.file_name()) {
                found = match found {
                    Some((first, last)) => Some((first.min(number), last.max(number))),
                    None => Some((number, number)),
                };
            }
        }
        Ok(found)
    }
}
