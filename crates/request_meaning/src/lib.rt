//! What a request means: a push, a query, or its first refusal.
#![tactic(auto)]

mod ask;
mod config;
mod form;
mod label_form;
mod meaning;
mod method;
mod refusal;
mod render_form;

pub use ask::{Ask, LabelAsk, LabelQuery, RenderAsk};
pub use config::Config;
pub use form::PushForm;
pub use meaning::{Meaning, Meant, meaning_of};
pub use method::LabelMethod;
pub use refusal::Refusal;
