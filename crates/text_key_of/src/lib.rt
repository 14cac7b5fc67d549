// The key with which a line begins (document 01, "Sheet and seed list": "Text lines are key=value").
#![tactic(auto)]

ghost use Rattle.std.specs.Prelude.{◌≡◌, ◌<◌};
ghost use Rattle.text_key_of.specs.Begins.{starts as starts_of, key_of};
ghost use Rattle.text_keys.specs.Keys.{rows, count, row_at};

use text_keys::Key;

// Whether a line begins with the name of the key at a place of the table.
fn begins(i: usize, line: &[u8]) -> bool
    requires { i < count }
    ensures { result ≡ starts_of (row_at i).name line.now }
{
    let spelling = text_keys::spelling_at(i);
    let name = spelling.1;
    let size = spelling.2;
    line.starts_with(&name[..size])
}

// The key with which a line begins.
pub fn key_of(line: &[u8]) -> Option<Key>
    ensures { result ≡ key_of rows line.now }
{
    for i in 0..text_keys::COUNT {
        if begins(i, line) {
            let spelling = text_keys::spelling_at(i);
            return Some(spelling.0);
        }
    }
    None
}
