//! Texts and their fronts.
ghost use Rattle.std.specs.Prelude.{◌≡◌, ◌++◌, codes, IfSome};

/// What stands after the front.
pub(crate) fn after<'a>(front: &[u8], body: &'a [u8]) -> Option<&'a [u8]>
    ensures { IfSome result (λ rest. body.now ≡ front.now ++ rest.now) }
{
    if body.len() < front.len() {
        return None;
    }
    let (first, rest) = body.split_at(front.len());
    if first == front { Some(rest) } else { None }
}

/// What stands before the first colon, and what stands after it; none if there is none.
pub(crate) fn at_colon(text: &[u8]) -> Option<(&[u8], &[u8])>
    ensures { IfSome result (λ found. text.now ≡ found.0.now ++ (codes ":" ++ found.1.now)) }
{
    let colon = text.iter().position(|byte| *byte == b':')?;
    let (front, rest) = text.split_at(colon);
    Some((front, after(b":", rest)?))
}

/// What stands before the first space, and what stands after it.
pub(crate) fn at_space(text: &[u8]) -> Option<(&[u8], &[u8])>
    ensures { IfSome result (λ found. text.now ≡ found.0.now ++ (codes " " ++ found.1.now)) }
{
    let space = text.iter().position(|byte| *byte == b' ')?;
    let (front, rest) = text.split_at(space);
    Some((front, after(b" ", rest)?))
}
