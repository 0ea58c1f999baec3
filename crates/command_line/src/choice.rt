//! Which call the words choose.

ghost use Rattle.std.specs.Prelude.{◌≡◌};
ghost use Rattle.command_line.specs.Choice.{choice_of};

/// Which call the words choose.
#[derive(Clone, Copy, Debug, PartialEq, Eq)]
pub enum Choice {
    /// `serve_main`, over the outside.
    Serve,
    /// `cascade_main`, over the input, the output and the link.
    Cascade,
    /// `batch_main`, over the input and the output.
    Batch,
}

/// Which call these words choose, those after the program's name: the first word decides.
pub fn choice_of(words: &[String]) -> Choice
    ensures { result ≡ choice_of words.now }
{
    match words {
        [first, ..] if first.as_str() == "serve" => Choice::Serve,
        [first, ..] if first.as_str() == "cascade" => Choice::Cascade,
        _ => Choice::Batch,
    }
}
