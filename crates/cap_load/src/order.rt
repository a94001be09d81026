ghost use Rattle.std.specs.Prelude.{◌≡◌, ◌==◌, position};
ghost use Rattle.cap_load.specs.Order.{place, comes_before};

/// The components of the standard in the order of a Load file, by their tags.
pub(crate) static COMPONENTS: [u8; 11] = [1, 2, 4, 3, 6, 7, 8, 10, 5, 9, 11];

/// Where a tag stands in a list of tags.
fn position(tags: &[u8], tag: u8) -> Option<usize>
    ensures { result ≡ position (λ t. t == tag) tags.now }
{
    tags.iter().position(|t| *t == tag)
}

/// The place of a component in the order of a Load file, by its tag, where it has one.
#[tactic(auto, unfolding(crate::specs::Order::place))]
pub(crate) fn place(tag: u8) -> Option<usize>
    ensures { result ≡ place tag }
{
    if tag >= 128 {
        return Some(tag as usize);
    }
    position(&COMPONENTS, tag)
}

/// Whether both tags have places and the first comes before the second.
#[tactic(auto, unfolding(crate::specs::Order::comes_before))]
pub(crate) fn comes_before(first: u8, second: u8) -> bool
    ensures { result ≡ comes_before first second }
{
    match place(first) {
        None => false,
        Some(m) => match place(second) {
            None => false,
            Some(n) => m < n,
        },
    }
}
