// Which rule would make a name too long.
ghost use Rattle.std.specs.Prelude.{◌≡◌};
ghost use Rattle.std.specs.List.{list_any};
ghost use Rattle.moos_post.specs.History.{posts_of_entry};
ghost use Rattle.moos_share.specs.LongNames.{is_long_with, makes_long, too_long_line};

use crate::rule::{Rule, Rules};
use moos_post::{Call, Entry, Name};
use moos_reg::matches;
use script_reader::Script;

// The longest name, in bytes.
const MAX_NAME: usize = 64;

/// The line of the first rule that would make a name too long: its variable pattern matches a variable that the script posts
/// and whose name has more than 64 bytes with the rule's prefix before it, whatever the rule's source pattern and the rules before.
/// None exactly if no rule would. It takes no memory.
pub fn too_long(rules: &Rules, first: &Script) -> Option<u32>
    ensures { result ≡ too_long_line rules.now first.now.lines }
{
    let lines = first.lines.all();
    let rule = rules.all().iter().find(|rule| makes_long(lines, rule))?;
    Some(rule.line)
}

// Whether the rule would make the name of a variable that these lines post too long.
fn makes_long(lines: &[Entry], rule: &Rule) -> bool
    ensures { result ≡ makes_long lines.now rule.now }
{
    lines.iter().any(|line| posts_long(line, rule))
}

// Whether it would that of a variable that this line posts.
fn posts_long(line: &Entry, rule: &Rule) -> bool
    ensures { result ≡ list_any (λ post. is_long_with rule.now post.var) (posts_of_entry line.now) }
{
    match &line.call {
        Call::Post(batch) => batch.all().iter().any(|pair| is_long_with(rule, &pair.var)),
        Call::Register(_) | Call::Unregister(_, _) | Call::Fetch => false,
    }
}

// Whether the rule would make this name too long. Its length is looked at first, since that costs less than a match.
fn is_long_with(rule: &Rule, var: &Name) -> bool
    ensures { result ≡ is_long_with rule.now var.now }
{
    let before = match &rule.prefix {
        None => 0,
        Some(prefix) => prefix.bytes().len(),
    };
    before + var.bytes().len() > MAX_NAME && matches(&rule.reg.var, var.bytes())
}
