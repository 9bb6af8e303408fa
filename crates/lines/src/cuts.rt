// Bytes cut at a mark, without a copy.
ghost use Rattle.std.specs.Prelude.{◌≡◌, ◌<◌, ℕ, List, length, Some, None, IfSome, MatchOption, ◌==◌};
ghost use Rattle.std.specs.List.{position};
ghost use Rattle.lines.specs.Cuts.{cut_at};

// Where the first mark stands.
fn first_place(bytes: &[u8], mark: u8) -> Option<usize>
    ensures first { result ≡ position (λ b. b == mark) bytes.now }
    ensures inside { IfSome result (λ at. at < length bytes.now) }
{
    bytes.iter().position(|byte| *byte == mark)
}

// What stands before the first mark, and what stands behind it.
pub fn cut(bytes: &[u8], mark: u8) -> Option<(&[u8], &[u8])>
    ensures { MatchOption result (cut_at mark bytes.now ≡ None) (λ p. cut_at mark bytes.now ≡ Some (p.0.now, p.1.now)) }
{
    let at = first_place(bytes, mark)?;
    Some((&bytes[..at], &bytes[at + 1..]))
}
