/// The characters that part a specification: the separator of stages, the end character of pipelines and the escape character.
#[derive(Clone, Copy)]
pub(crate) struct Signs {
    pub separator: u8,
    pub end: Option<u8>,
    pub escape: Option<u8>,
}

/// A character that an option chooses, at the place of the value.
#[derive(Clone, Copy)]
pub(crate) struct Choice {
    pub byte: u8,
    pub place: u32,
}

/// A global option.
#[derive(Clone, Copy)]
pub(crate) enum OptionName {
    Separator,
    End,
    Escape,
    /// Its value has no effect.
    Name,
}
