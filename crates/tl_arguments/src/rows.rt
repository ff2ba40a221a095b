// The options and files of commands, a row each.

/// How a value is read.
#[derive(Clone, Copy)]
pub(crate) enum Reading {
    Text,
    /// It has no value: it is there, or not.
    Flag,
    /// Each time the option is given there is one more.
    Texts,
    /// One file or more.
    Files,
    /// 0 to 65,535.
    Number,
    /// 1 to 65,535.
    Positive,
    /// 1 to `MOST_NODES`.
    Nodes,
    /// 1 to 16,777,216.
    Calls,
    /// 1 to 1,024.
    Places,
    /// 0 to 4,294,967,295.
    Epoch,
    /// 1 to 128.
    Epochs,
    /// 1 to 16.
    Workers,
    /// 1.
    One,
}

/// An option, or a file that is named without one.
#[derive(Clone, Copy)]
pub(crate) struct Row {
    pub(crate) name: &'static str,
    /// What help shows in the place of the value.
    pub(crate) shown: &'static str,
    pub(crate) help: &'static str,
    pub(crate) reading: Reading,
    /// Whether its name stands before the value, behind `--`.
    pub(crate) is_option: bool,
    pub(crate) is_required: bool,
    pub(crate) default: Option<&'static str>,
    /// It is required if none of these is there.
    pub(crate) unless: [Option<&'static str>; 3],
    /// This may not be there too.
    pub(crate) excluded: Option<&'static str>,
    /// It is required if this option has that value.
    pub(crate) with: Option<(&'static str, &'static str)>,
}

impl Row {
    /// An option that may be left out.
    pub(crate) fn option(name: &'static str, shown: &'static str, help: &'static str) -> Row {
        Row {
            name,
            shown,
            help,
            reading: Reading::Text,
            is_option: true,
            is_required: false,
            default: None,
            unless: [None, None, None],
            excluded: None,
            with: None,
        }
    }

    /// An option without a value.
    pub(crate) fn flag(name: &'static str, help: &'static str) -> Row {
        Row {
            reading: Reading::Flag,
            ..Row::option(name, "", help)
        }
    }

    /// A file that has to be named.
    pub(crate) fn file(name: &'static str, help: &'static str) -> Row {
        Row {
            is_option: false,
            is_required: true,
            ..Row::option(name, name, help)
        }
    }

    /// The same, read so.
    pub(crate) fn as_a(self, reading: Reading) -> Row {
        Row { reading, ..self }
    }

    /// The same, which may not be left out.
    pub(crate) fn required(self) -> Row {
        Row {
            is_required: true,
            ..self
        }
    }

    /// The same, which has this value if it is left out.
    pub(crate) fn or(self, default: &'static str) -> Row {
        Row {
            default: Some(default),
            ..self
        }
    }

    /// The same, which may be left out only if one of these is there.
    pub(crate) fn required_unless(self, unless: [Option<&'static str>; 3]) -> Row {
        Row { unless, ..self }
    }

    /// The same, which is refused beside that one.
    pub(crate) fn excluding(self, excluded: &'static str) -> Row {
        Row {
            excluded: Some(excluded),
            ..self
        }
    }

    /// The same, which may not be left out if the option has that value.
    pub(crate) fn required_with(self, option: &'static str, value: &'static str) -> Row {
        Row {
            with: Some((option, value)),
            ..self
        }
    }
}
