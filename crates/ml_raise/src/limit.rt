//! The limits that a session may pass.
ghost use Rattle.std.specs.Prelude.{◌≡◌, IsTrue};
ghost use Rattle.ml_raise.specs.Causes.{limit_name};
ghost use Rattle.ml_term.specs.Names.{is_name};

/// A limit that a session may pass.
#[derive(Clone, Copy)]
pub enum Limit {
    /// Its inferences.
    Inferences,
    /// The nodes of a term that is called, raised or passed to the store.
    TermNodes,
    /// The canonical bytes of an item.
    ItemBytes,
    /// Its changes.
    Changes,
    /// Its answer bytes.
    AnswerBytes,
}

impl Limit {
    // What the raised term tells of the limit.
    pub(crate) fn name(self) -> &'static [u8]
        ensures same { result.now ≡ limit_name self }
        ensures valid { IsTrue (is_name result.now) }
    {
        match self {
            Limit::Inferences => b"inferences",
            Limit::TermNodes => b"term",
            Limit::ItemBytes => b"item",
            Limit::Changes => b"changes",
            Limit::AnswerBytes => b"output",
        }
    }
}
