//! Who keeps a tag.

/// Which root of a page is asked whether it keeps a tag. Source: project's own choice.
#[derive(Clone, Copy, PartialEq, Eq)]
pub enum Keeper {
    /// The declared one, which holds the tag.
    Declared,
    /// One that was given up, which left it.
    GivenUp,
}
