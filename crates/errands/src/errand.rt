//! What answers what.

/// What one thread may ask of another one (`Q`), what comes of it (`A`), and which of these answer what was asked.
pub trait Errand<Q, A> {
    ghost answers: { Q → A → Type 0 };
}
