// What a step reads of what the helm has learnt.
ghost use Rattle.std.specs.Prelude.{◌≡◌, IfSome, IsTrue};
ghost use Rattle.helm_cond.specs.Infos.{knowledge_of};
ghost use Rattle.helm_geo.specs.Plane.{is_coordinate, is_spot};
ghost use Rattle.bhv_file.specs.Known.{latest_number, position_of};

use helm_cond::Info;
use helm_geo::Spot;
use moos_post::Value;

/// The latest value of a variable in thousandths, if it is a number.
pub fn latest_number(info: &Info, var: &[u8]) -> Option<i64>
    ensures number { result ≡ latest_number (knowledge_of info.now) var.now }
    ensures within { IfSome result (λ number. IsTrue (is_coordinate number)) }
{
    match info.get(var) {
        Some(Value::Num(number)) => Some(number.get()),
        _ => None,
    }
}

/// The own position, if both its numbers are known.
pub fn position(info: &Info) -> Option<Spot>
    ensures spot { result ≡ position_of (knowledge_of info.now) }
    ensures within { IfSome result (λ spot. IsTrue (is_spot spot)) }
{
    let x = latest_number(info, b"NAV_X")?;
    let y = latest_number(info, b"NAV_Y")?;
    Some(Spot { x, y })
}
