//! The least certificate: the edges that lie in every set of edges for which the rules of certificates hold.
#![tactic(auto)]

mod asking;
mod boot;
mod close;
mod closing;
mod laws;
mod replies;

pub use close::close_cert;
pub use closing::CloseError;
pub use laws::the_least_certificate_decides;
