// The same cut by several workers: the subtrees are dealt among them in turn, and their lines are joined in order.
ghost use Rattle.std.specs.Prelude.{◌≡◌, ◌<◌, ◌≤◌, List, All, IfOk, Ok, flat_map, length, map};
ghost use Rattle.ivp_problem.specs.Sums.{best_of, key_at};
ghost use Rattle.ivp_cert.specs.declared.cert.Line.{Line};
ghost use Rattle.ivp_cert.specs.Certificates.{certificate_of};
ghost use Rattle.ivp_cert.specs.Dealing.{dealt, dealt_to};
ghost use Rattle.ivp_cert.specs.Subtrees.{IsSubtree, cut_at};

use crate::cert::{Cert, Line};
use crate::cutting::add_topmost;
use crate::share::Share;
use crate::subtree::{Subtree, subtrees_of};
use ivp_problem::{Key, Problem};
use moos_post::NoMemory;
use std::alloc::Global;
use std::thread::{Threads, map_indices};

// How many subtrees there are at least, if the tree has so many. They are uneven, so many of them make the workers' shares even;
// but one worker alone finds them, and if they are as many as the tree has nodes, nothing is left to share.
const SUBTREES: usize = 2_048;

/// The same as `cut`, by 1 to 16 workers, each on a thread of its own if one can be started.
pub fn cut_by_workers<R: Threads + Sync>(
    rt: &R,
    alloc: Global,
    problem: &Problem,
    key: Key,
    workers: u32,
) -> Result<Cert, NoMemory>
    requires key { key ≡ key_at problem.now (best_of problem.now) }
    requires some { 1 ≤ workers }
    requires few { workers ≤ 16 }
    ensures { IfOk result (λ cert. cert ≡ certificate_of problem.now) }
{
    let workers = workers as usize;
    let subtrees = subtrees_of(alloc, problem, key, SUBTREES)?;
    let shares = cut_all(rt, alloc, problem, key, subtrees.as_slice(), workers)?;
    let lines = joined(alloc, subtrees.len(), shares)?;
    Ok(Cert::of(lines))
}

// The lines of a subtree.
fn cut_subtree(
    alloc: Global,
    problem: &Problem,
    key: Key,
    subtree: &Subtree,
) -> Result<Vec<Line>, NoMemory>
    requires { IsSubtree problem.now subtree.now }
    ensures { IfOk result (λ lines. lines.items ≡ cut_at problem.now key subtree.now) }
{
    let mut lines = Vec::new(alloc);
    let mut trail = subtree.path.copy();
    add_topmost(alloc, problem, key, &subtree.node, &mut trail, &mut lines)?;
    Ok(lines)
}

// The lines of each subtree that is dealt to the worker of this number.
fn cut_share(
    alloc: Global,
    problem: &Problem,
    key: Key,
    subtrees: &[Subtree],
    workers: usize,
    number: usize,
) -> Result<Share, NoMemory>
    requires some { 1 ≤ workers }
    requires subtrees { All (IsSubtree problem.now) subtrees.now }
    ensures { IfOk result (λ share. share ≡ dealt_to workers number (map (cut_at problem.now key) subtrees.now)) }
{
    let mut cuts = Vec::new(alloc);
    let mut wait = number;
    for subtree in subtrees {
        if wait > 0 {
            wait -= 1;
            continue;
        }
        let lines = cut_subtree(alloc, problem, key, subtree)?;
        cuts.push(lines)?;
        wait = workers - 1;
    }
    Ok(Share::of(cuts))
}

// What all workers cut, each on a thread of its own if one can be started.
fn cut_all<R: Threads + Sync>(
    rt: &R,
    alloc: Global,
    problem: &Problem,
    key: Key,
    subtrees: &[Subtree],
    workers: usize,
) -> Result<Vec<Share>, NoMemory>
    requires some { 1 ≤ workers }
    requires subtrees { All (IsSubtree problem.now) subtrees.now }
    ensures { IfOk result (λ shares. shares.items ≡ dealt workers (map (cut_at problem.now key) subtrees.now)) }
{
    let run = |number: usize| -> Result<Share, NoMemory>
        requires { (1 ≤ workers) × All (IsSubtree problem.now) subtrees.now }
        ensures { IfOk result (λ share. share ≡ dealt_to workers number (map (cut_at problem.entry.now key) subtrees.entry.now)) }
    { cut_share(alloc, problem, key, subtrees, workers, number) };
    let answers = map_indices(rt, alloc, workers, &run)?;
    let shares = all_of(alloc, answers)?;
    Ok(shares)
}

// The shares of all workers, if none found too little memory.
fn all_of(alloc: Global, answers: Vec<Result<Share, NoMemory>>) -> Result<Vec<Share>, NoMemory>
    ensures { IfOk result (λ shares. map Ok shares.items ≡ answers.items) }
{
    let mut shares = Vec::with_capacity(alloc, answers.len())?;
    for answer in answers {
        shares.push(answer?)?;
    }
    Ok(shares)
}

// Joins `many` cuts that were dealt, in their order: the share that is first gives its next one, and then is the last.
fn joined(alloc: Global, many: usize, mut shares: Vec<Share>) -> Result<Vec<Line>, NoMemory>
    requires { 0 < length shares.items }
    ensures { IfOk result (λ lines. (cuts : List (List Line)) → length cuts ≡ many → shares.items ≡ dealt (length shares.items) cuts → lines.items ≡ flat_map (λ cut. cut) cuts) }
{
    let mut lines = Vec::new(alloc);
    for _ in 0..many {
        shares[0].give(&mut lines)?;
        shares.rotate_left(1);
    }
    Ok(lines)
}
