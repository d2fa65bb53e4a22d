// A highlight among items.
ghost use Rattle.std.specs.Prelude.{◌≡◌};
ghost use Rattle.item_ring.specs.Ring.{highlighted};

use key_words::Key;

/// Where a key moves the highlight among so many items: LEFT and RIGHT move it in a ring, HOME and END to the ends, and
/// any other leaves it (Release 2 manual).
pub fn highlighted(key: &Key, count: usize, highlight: usize) -> usize
    ensures { result ≡ highlighted key.now count highlight }
{
    match key {
        Key::Left => {
            if highlight == 0 {
                count.saturating_sub(1)
            } else {
                highlight - 1
            }
        }
        Key::Right => {
            if highlight.saturating_add(1) < count {
                highlight + 1
            } else {
                0
            }
        }
        Key::Home => 0,
        Key::End => count.saturating_sub(1),
        _ => highlight,
    }
}
