//! Laws at the mirror: the public document and the definitions' document are one, and the mirror
//! loses nothing, so that two values of code which the definitions have one value for are one.
//!
//! The functions have empty bodies: what each claims is its contract.
#![tactic(auto)]

mod agreeing;

pub use agreeing::{
    documents_agree, documents_are_one, documents_go_on_alike, edits_agree, edits_are_one,
    reports_show,
};
