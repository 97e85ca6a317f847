//! Reading conditions and effects.

mod conditions;
mod effects;

pub use conditions::condition;
pub use effects::effect;
