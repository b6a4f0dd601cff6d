// A mission: its domain and its settings.
use ivp_domain::Domain;
use moos_post::Txt;

/// What a mission says of the helm.
#[derive(Drop)]
pub struct Mission {
    /// The time from one iteration to the next, in milliseconds.
    pub period: u64,
    /// The name of the behaviour file.
    pub behaviors: Txt,
    /// What is decided on.
    pub domain: Domain,
    /// The number of the file's last line, 1 if it is empty.
    pub lines: u32,
}
