// Where a tag stands among those that are outstanding.
ghost use Rattle.std.specs.Prelude.{◌≡◌, ◌==◌, ◌<◌, length, position, Contains, IfSome, IfNone};

/// The first place of these tags that is `tag`.
pub fn place_of(tags: &[u64], tag: u64) -> Option<usize>
    ensures first { result ≡ position (λ x. x == tag) tags.now }
    ensures within { IfSome result (λ k. k < length tags.now) }
    ensures found { IfSome result (λ k. Contains tags.now tag) }
    ensures absent { IfNone result (¬ Contains tags.now tag) }
{
    tags.iter().position(|t| *t == tag)
}
