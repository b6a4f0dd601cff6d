// Axes by their names.
ghost use Rattle.std.specs.Prelude.{◌≡◌, ◌<◌, ◌≤◌, bytes_eq, length, position, IfSome, IsTrue};
ghost use Rattle.ivp_domain.specs.Domains.{is_domain};
ghost use Rattle.bhv_file.specs.Named.{axis_number};
ghost use Rattle.bhv_file.specs.Params.{has_axis};

use ivp_domain::Domain;

/// Whether a domain has an axis of this name.
pub fn has_axis(domain: &Domain, name: &[u8]) -> bool
    ensures { result ≡ has_axis domain.now name.now }
{
    domain.all().iter().any(|axis| axis.name.bytes() == name)
}

/// The number of the axis of this name.
#[tactic(auto, using(crate::proofs::Named::named_at))]
pub fn axis_number(domain: &Domain, name: &[u8]) -> u32
    requires { IsTrue (has_axis domain.now name.now) }
    ensures number { result ≡ axis_number domain.now name.now }
    ensures within { result < length domain.now }
{
    match axis_named(domain, name) {
        Some(place) => place as u32,
        None => 0,
    }
}

/// The place of the first axis of this name, from 0, or None if there is none.
#[tactic(auto, using(ivp_domain::proofs::Sizes::four_axes, crate::proofs::Named::place_within))]
pub fn axis_named(domain: &Domain, name: &[u8]) -> Option<usize>
    ensures place { result ≡ position (λ axis. bytes_eq axis.name name.now) domain.now }
    ensures within { IfSome result (λ place. place < length domain.now) }
    ensures few { length domain.now ≤ 4 }
    ensures lawful { IsTrue (is_domain domain.now) }
{
    domain
        .all()
        .iter()
        .position(|axis| axis.name.bytes() == name)
}
