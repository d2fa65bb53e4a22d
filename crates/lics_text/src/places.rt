// Where bytes stand in a text.
ghost use Rattle.std.specs.Prelude.{◌≡◌, ◌≤◌, ◌+◌, true, false, IfSome, IfNone, length};
ghost use Rattle.lics_text.specs.Texts.{StandsAt, IsFirstPlace, IsNoPlace};

// Whether bytes stand in a text at a place at which the text is long enough for them.
fn stands_at(what: &[u8], text: &[u8], at: usize) -> bool
    requires { at + length what.now ≤ length text.now }
    ensures yes { result ≡ true → StandsAt what.now text.now at }
    ensures no { result ≡ false → StandsAt what.now text.now at → ⊥ }
{
    &text[at..at + what.len()] == what
}

/// The first place from the given one on at which the bytes stand.
pub fn first_place(what: &[u8], text: &[u8], from: usize) -> Option<usize>
    ensures some { IfSome result (λ at. IsFirstPlace what.now text.now from at) }
    ensures none { IfNone result (IsNoPlace what.now text.now from) }
{
    let mut at = from;
    while at <= text.len() && what.len() <= text.len() - at {
        if stands_at(what, text, at) {
            return Some(at);
        }
        at += 1;
    }
    None
}
