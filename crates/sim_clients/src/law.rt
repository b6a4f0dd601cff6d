// What holds of every post of the clients.
ghost use Rattle.std.specs.Prelude.{ℕ, ◌≤◌, length, List, neg_ℤ, pos};
ghost use Rattle.std.specs.List.{All};
ghost use Rattle.contact_avoid.specs.declared.ranges.Ranges.{Ranges};
ghost use Rattle.moos_post.specs.declared.value.Pair.{Pair};
ghost use Rattle.moos_post.specs.Entries.{IsPair};
ghost use Rattle.sim_vehicle.specs.declared.settings.CraftSettings.{CraftSettings};
ghost use Rattle.sim_vehicle.specs.Motion.{IsHull};
ghost use Rattle.sim_vehicle.specs.Settings.{AreAllowed};
ghost use Rattle.sim_vehicle.specs.Steering.{Lies};
ghost use Rattle.sim_clients.specs.Clients.{contacts_by, drive_by, hull_by};

/// Whatever was mailed, the rudder is within `max_rudder` either way, the thrust from 0 to `max_thrust`, the heading from 0 to
/// 359.999 degrees and the speed from 0 to `max_speed`; place and depth are in their ranges too. It does nothing.
pub fn posts_law()
    ensures rudder { (craft : CraftSettings) → AreAllowed craft → (mails : List (List Pair)) → Lies (neg_ℤ craft.max_rudder) craft.max_rudder (drive_by craft mails).rudder }
    ensures thrust { (craft : CraftSettings) → AreAllowed craft → (mails : List (List Pair)) → Lies (pos 0) craft.max_thrust (drive_by craft mails).thrust }
    ensures hull { (craft : CraftSettings) → AreAllowed craft → (period : ℕ) (mails : List (List Pair)) → IsHull craft (hull_by craft period mails) }
{}

/// Whatever was mailed, what is posted of contacts at a turn is at most 64 pairs, each of them with a name and a text as a post has
/// them. It does nothing.
pub fn contacts_law()
    ensures few { (ranges : Ranges) (mails : List (List Pair)) → length (contacts_by ranges mails) ≤ 64 }
    ensures pairs { (ranges : Ranges) (mails : List (List Pair)) → All IsPair (contacts_by ranges mails) }
{}
