//! What names stand for.

/// What a name stands for: a text, or the domain in the value of another name, which is what is past the first dot of it
/// (postconf(5), main.cf format, and mydomain).
#[derive(Clone, Copy, Debug, Drop)]
pub enum Meaning<T, N> {
    Is(T),
    DomainOf(N),
}
