//! What the names of a file are, and which uses each kind of name fits.
#![tactic(auto)]

mod children;
mod expressions;
mod kinds;
mod misuses;
mod name_kinds;
mod named;
mod publics;
mod rules;
mod scope;
mod settings;
mod single;
mod statements;
mod uses;

pub use children::{Child, ChildConst, ChildMethod, Children};
pub use kinds::Kinds;
pub use misuses::{first_misuse, first_unknown};
pub use name_kinds::{Label, NameKind};
pub use named::Named;
pub use publics::publics_of;
pub use scope::Scope;
pub use settings::consts_of;
pub use uses::{Use, argument_count};
