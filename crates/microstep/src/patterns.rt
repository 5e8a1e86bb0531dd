//! The descriptors that match a type, in the order in which they are looked at.

ghost use Rattle.std.specs.Prelude.{◌≡◌, ◌++◌, IfOk, map};
ghost use Rattle.std.specs.Str.{bytes_eq};
ghost use Rattle.microstep.specs.Candidates.{descriptors_of, ends_part};
ghost use Rattle.microstep.specs.Patterns.{pattern_text};

use std::alloc::{AllocError, Global};

/// A descriptor that matches a type.
#[derive(Clone, Copy, Debug)]
pub(crate) enum Pattern {
    /// The type itself.
    Whole,
    /// `P.*`, where P has so many bytes of the type.
    Part(usize),
    /// `*`.
    Any,
}

/// The descriptors that match a type. It costs their number, which is at most three more than that
/// of the type's dots, and a look at each byte of the type.
pub(crate) fn patterns_of(alloc: Global, kind: &[u8]) -> Result<Vec<Pattern>, AllocError>
    ensures { IfOk result (λ patterns.
        map (pattern_text kind.now) patterns.items ≡ descriptors_of kind.now) }
{
    let mut patterns = vec![in alloc; Pattern::Whole]?;
    for count in (0..kind.len() + 1).rev() {
        if ends_part(kind, count) && !is_pattern(kind, kind, Pattern::Part(count)) {
            patterns.push(Pattern::Part(count))?;
        }
    }
    if !is_pattern(kind, kind, Pattern::Any) {
        patterns.push(Pattern::Any)?;
    }
    Ok(patterns)
}

/// Whether a partial wildcard may stand behind so many bytes of a type.
fn ends_part(kind: &[u8], count: usize) -> bool
    ensures { result ≡ ends_part kind.now count }
{
    match kind.get(count) {
        Some(byte) => *byte == b'.',
        None => true,
    }
}

/// Whether a descriptor is this one.
pub(crate) fn is_pattern(kind: &[u8], descriptor: &[u8], pattern: Pattern) -> bool
    ensures { result ≡ bytes_eq descriptor.now (pattern_text kind.now pattern) }
{
    match pattern {
        Pattern::Whole => descriptor == kind,
        Pattern::Part(count) => is_wildcard(kind, descriptor, count),
        Pattern::Any => descriptor == b"*".as_slice(),
    }
}

/// Whether a descriptor is `P.*`, where P has so many bytes of the type.
fn is_wildcard(kind: &[u8], descriptor: &[u8], count: usize) -> bool
    ensures { result ≡ bytes_eq descriptor.now (pattern_text kind.now (Pattern.Part count)) }
{
    let part = &kind[..count.min(kind.len())];
    is_joined(descriptor, part, b".*".as_slice())
}

/// Whether a text is these two parts, one behind the other.
fn is_joined(text: &[u8], front: &[u8], back: &[u8]) -> bool
    ensures { result ≡ bytes_eq text.now (front.now ++ back.now) }
{
    match text.strip_prefix(front) {
        Some(rest) => rest == back,
        None => false,
    }
}
