// The lines of a text by their line feeds (document 01, "Sheet and seed list").
#![tactic(auto)]

ghost use Rattle.std.specs.Prelude.{◌≡◌, ◌+◌, ◌≤◌, length, drop};
ghost use Rattle.text_split.specs.Text.{span};

// Where the line that begins at `from` ends: at its line feed, or at the end of the text.
// An inner function: its callers show that the line begins inside the text.
pub fn line_end(text: &[u8], from: usize) -> usize
    requires { from ≤ length text.now }
    ensures { result ≡ from + span (drop from text.now) }
{
    let rest = &text[from..];
    from + rest.iter().position(|&b| b == b'\n').unwrap_or(rest.len())
}
