// The gate of the second community.
use moos_io::Gate;

/// Tells a gate of the calls in the second community: its clients have the numbers there that follow those of the first.
#[derive(Drop)]
pub(crate) struct SecondGate<'a, G> {
    gate: &'a G,
    first_clients: u32,
}

impl<'a, G: Gate> SecondGate<'a, G> {
    /// The same gate behind so many clients of the first community.
    pub(crate) fn behind(gate: &'a G, first_clients: u32) -> SecondGate<'a, G> {
        SecondGate {
            gate,
            first_clients,
        }
    }
}

impl<'a, G: Gate> Gate for SecondGate<'a, G> {
    fn at_node(&self, worker: u32, nth: u64) {
        self.gate.at_node(worker, nth);
    }

    fn at_call(&self, client: u32, nth: u64) {
        self.gate
            .at_call(client.saturating_add(self.first_clients), nth);
    }
}
