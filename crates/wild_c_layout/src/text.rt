//! Text in a buffer of a C program.
ghost use Rattle.std.specs.Prelude.{◌≡◌};
ghost use Rattle.wild_c_layout.specs.Text.{fits, put};

/// Writes the text into the front of `out`, if it is not longer.
pub fn put_text(text: &[u8], out: &mut [u8]) -> bool
    ensures fits { result ≡ fits text.now out.old }
    ensures room { out.new ≡ put text.now out.old }
{
    if out.len() < text.len() {
        return false;
    }
    let (front, _) = out.split_at_mut(text.len());
    front.copy_from_slice(text);
    true
}
