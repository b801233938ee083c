//! What is to be shown of a trace.

/// How trees are drawn.
#[derive(Clone, Copy, Debug, PartialEq, Eq)]
pub enum Form {
    /// As text.
    Text,
    /// As text, before and after side by side.
    Diff,
    /// In the language of Graphviz.
    Dot,
    /// As an SVG picture.
    Svg,
    /// As an SVG picture, before and after side by side.
    Pair,
}

/// What is to be shown of a trace.
#[derive(Clone, Copy, Debug)]
pub struct View {
    /// After which record; the last of the trace, if none is named.
    pub at: Option<u64>,
    /// Only this frame.
    pub frame: Option<u32>,
    /// Only this space, as a table.
    pub space: Option<u32>,
    /// How it is drawn.
    pub form: Form,
    /// How many mappings are drawn.
    pub most: u64,
}
