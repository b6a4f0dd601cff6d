// One behaviour, line by line.
ghost use Rattle.std.specs.Prelude.{◌≡◌, ◌<◌, ◌^◌, ◌++◌, ◌∷◌, [], length, ok_or, Ok, Err, IfOk, OnOk, IfErr, Some, None, option_map, true, false, if◌then◌else◌};
ghost use Rattle.moos_post.specs.Words.{is_name};
ghost use Rattle.moos_text.specs.Pairs.{sides_of};
ghost use Rattle.moos_text.specs.Refusals.{and_then, IsLineFault};
ghost use Rattle.bhv_file.specs.Ranges.{InRanges};
ghost use Rattle.bhv_file.specs.Validity.{is_taken};
ghost use Rattle.bhv_reader.specs.Blocks.{behavior_closed, block_of, closing_fault, with_block, behavior_of_type, flags_in, is_unheard, name_value, one_flag, with_behavior_condition, with_behavior_name, with_common, with_parameter, with_sides};
ghost use Rattle.helm_cond.specs.Grammar.{condition_of};
ghost use Rattle.bhv_reader.specs.Places.{behavior_block};
ghost use Rattle.bhv_file.specs.declared.file.BhvFile.{BhvFile};

use crate::element::{add_cond, add_flag, flag_in, good, name_in};
use crate::judging::has_axes;
use crate::mode::condition_in;
use crate::types::{defaults, needs_number};
use bhv_file::{
    BhvFile, Block, Common, CommonParameter, Conds, Parameter, Spec, Unused, common_named,
    is_needed, keeps_relations, lacks_places, parameter_named, read_duration, read_flag,
    read_templating, read_weight, set_value, suits,
};
use ivp_domain::Domain;
use moos_post::{Batch, Name, Pair, Txt, is_name};
use moos_text::{Cause, LineFault, cut_at_equals};
use std::alloc::Global;

// The most behaviours of a file, and the most flags of one.
const MOST_BEHAVIORS: usize = 64;

const MOST_FLAGS: u128 = 32;

/// A behaviour whose block isn't closed yet.
#[derive(Drop)]
pub struct UnclosedBehavior {
    pub name: Option<Name>,
    pub conds: Conds,
    pub runflags: Batch,
    pub idleflags: Batch,
    pub activeflags: Batch,
    pub inactiveflags: Batch,
    pub endflags: Batch,
    pub updates: Option<Name>,
    pub duration: Option<u64>,
    pub idle_decay: bool,
    pub perpetual: bool,
    pub template: bool,
    /// Whether the number without a default was given, or its type has none.
    pub given: bool,
    pub spec: Spec,
}

impl UnclosedBehavior {
    /// A behaviour of the type of this name before its first parameter.
    pub fn begin(alloc: Global, type_: &[u8]) -> Result<UnclosedBehavior, Cause>
        ensures { result ≡ behavior_of_type type_.now }
    {
        if type_.len() == 0 {
            return Err(Cause::B1);
        }
        let Some(shape) = defaults(alloc, type_) else {
            return Err(Cause::B3);
        };
        Ok(UnclosedBehavior {
            name: None,
            conds: Conds::new(alloc),
            runflags: Batch::new(alloc),
            idleflags: Batch::new(alloc),
            activeflags: Batch::new(alloc),
            inactiveflags: Batch::new(alloc),
            endflags: Batch::new(alloc),
            updates: None,
            duration: None,
            idle_decay: true,
            perpetual: false,
            template: false,
            given: !needs_number(&shape),
            spec: Spec {
                weight: 100_000,
                shape,
            },
        })
    }

    /// Reads one line more, `param = value`, which has this number.
    #[inline(always)]
    pub fn read_line(
        &mut self,
        alloc: Global,
        file: &mut BhvFile,
        line: u32,
        text: &[u8],
    ) -> Result<(), LineFault>
        requires text { length text.now < 2 ^ 32 }
        ensures read { IfOk result (λ _. with_sides (behavior_block file.old self.old) line (sides_of text.now) ≡ Ok (behavior_block file.new self.new)) }
        ensures refused { IfErr result (λ fault. IsLineFault fault (with_sides (behavior_block file.old self.old) line (sides_of text.now))) }
        ensures decls { file.new.decls ≡ file.old.decls }
    {
        let Some((name, value)) = cut_at_equals(text) else {
            return Err(LineFault::Refused(Cause::B1));
        };
        // What a table knows is a name and is in no other table: so the type's own is looked at first, and only what no
        // table knows is judged.
        if let Some(parameter) = parameter_named(&self.spec.shape, name) {
            return self.set_own(alloc, parameter, value);
        }
        if let Some(parameter) = common_named(name) {
            return self.set_common(alloc, file.blocks.all(), parameter, value);
        }
        if !is_name(name) {
            return Err(LineFault::Refused(Cause::B1));
        }
        add_unused(alloc, file, line, name)
    }

    /// Closes the block, behind whose `}` this is, in a file over this domain.
    pub fn close(self, domain: &Domain, file: &mut BhvFile, behind: &[u8]) -> Result<(), LineFault>
        requires { InRanges false self.spec.shape }
        ensures read { IfOk result (λ _. behavior_closed domain.now (behavior_block file.old self) behind.now ≡ Ok file.new) }
        ensures refused { IfErr result (λ fault. IsLineFault fault (behavior_closed domain.now (behavior_block file.old self) behind.now)) }
        ensures decls { file.new.decls ≡ file.old.decls }
    {
        self.judge(domain, behind)?;
        self.add_to(file)
    }

    // Refuses it at the end of its block, behind whose `}` this is, if it isn't good.
    fn judge(&self, domain: &Domain, behind: &[u8]) -> Result<(), LineFault>
        requires { InRanges false self.now.spec.shape }
        ensures good { OnOk result ((behind.now ≡ []) × (closing_fault domain.now self.now ≡ None)) }
        ensures refused { (file : BhvFile) → IfErr result (λ fault. IsLineFault fault (behavior_closed domain.now (behavior_block file self.now) behind.now)) }
    {
        if behind.len() > 0 {
            return Err(LineFault::Refused(Cause::B1));
        }
        match self.closing_fault(domain) {
            Some(cause) => Err(LineFault::Refused(cause)),
            None => Ok(()),
        }
    }

    // Why it is refused at the end of its block, if it is.
    fn closing_fault(&self, domain: &Domain) -> Option<Cause>
        requires { InRanges false self.now.spec.shape }
        ensures { result ≡ closing_fault domain.now self.now }
    {
        let shape = &self.spec.shape;
        if self.name.is_none() || !self.given || self.is_unheard() || lacks_places(shape) {
            return Some(Cause::B11);
        }
        if !(keeps_relations(shape) && suits(domain, shape)) {
            return Some(Cause::B6);
        }
        if !has_axes(domain, shape) {
            return Some(Cause::B10);
        }
        None
    }

    // It is a template, and there is no variable whose letters it hears.
    fn is_unheard(&self) -> bool
        ensures { result ≡ is_unheard self.now }
    {
        self.template && self.updates.is_none()
    }

    // One behaviour more of the file.
    fn add_to(self, file: &mut BhvFile) -> Result<(), LineFault>
        ensures read { IfOk result (λ _. with_block (behavior_block file.old self) self.name ≡ Ok file.new) }
        ensures refused { IfErr result (λ fault. IsLineFault fault (with_block (behavior_block file.old self) self.name)) }
        ensures decls { file.new.decls ≡ file.old.decls }
    {
        let Some(block) = self.block() else {
            return Err(LineFault::Refused(Cause::B11));
        };
        if file.blocks.len() >= MOST_BEHAVIORS {
            return Err(LineFault::Refused(Cause::B9));
        }
        file.blocks.add(block)?;
        Ok(())
    }

    // The whole of it, if it has a name.
    fn block(self) -> Option<Block>
        ensures { result ≡ option_map (block_of self) self.name }
    {
        let name = self.name?;
        let common = Common {
            name,
            conds: self.conds,
            runflags: self.runflags,
            idleflags: self.idleflags,
            activeflags: self.activeflags,
            inactiveflags: self.inactiveflags,
            endflags: self.endflags,
            updates: self.updates,
            duration: self.duration,
            idle_decay: self.idle_decay,
            perpetual: self.perpetual,
            template: self.template,
        };
        Some(Block {
            common,
            spec: self.spec,
        })
    }

    // A parameter of its type.
    fn set_own(
        &mut self,
        alloc: Global,
        parameter: Parameter,
        value: &[u8],
    ) -> Result<(), LineFault>
        ensures read { IfOk result (λ _. with_parameter self.old value.now parameter ≡ Ok self.new) }
        ensures refused { IfErr result (λ fault. IsLineFault fault (with_parameter self.old value.now parameter)) }
    {
        match set_value(alloc, &mut self.spec.shape, parameter, value) {
            Ok(true) => {
                self.given = self.given || is_needed(parameter);
                Ok(())
            },
            Ok(false) => Err(LineFault::Refused(Cause::B6)),
            Err(_) => Err(LineFault::NoMemory),
        }
    }

    // A parameter that all types have, behind these behaviours.
    #[inline(never)]
    fn set_common(
        &mut self,
        alloc: Global,
        blocks: &[Block],
        parameter: CommonParameter,
        value: &[u8],
    ) -> Result<(), LineFault>
        requires text { length value.now < 2 ^ 32 }
        ensures read { IfOk result (λ _. with_common blocks.now self.old value.now parameter ≡ Ok self.new) }
        ensures refused { IfErr result (λ fault. IsLineFault fault (with_common blocks.now self.old value.now parameter)) }
    {
        match parameter {
            CommonParameter::Name => self.set_name(alloc, blocks, value),
            CommonParameter::Weight => {
                self.spec.weight = good(read_weight(value))?;
                Ok(())
            },
            CommonParameter::Condition => self.add_condition(alloc, value),
            CommonParameter::RunFlag => {
                let pair = self.one_flag(alloc, value)?;
                add_flag(&mut self.runflags, pair)
            },
            CommonParameter::IdleFlag => {
                let pair = self.one_flag(alloc, value)?;
                add_flag(&mut self.idleflags, pair)
            },
            CommonParameter::ActiveFlag => {
                let pair = self.one_flag(alloc, value)?;
                add_flag(&mut self.activeflags, pair)
            },
            CommonParameter::InactiveFlag => {
                let pair = self.one_flag(alloc, value)?;
                add_flag(&mut self.inactiveflags, pair)
            },
            CommonParameter::EndFlag => {
                let pair = self.one_flag(alloc, value)?;
                add_flag(&mut self.endflags, pair)
            },
            CommonParameter::Updates => {
                self.updates = Some(name_in(alloc, value)?);
                Ok(())
            },
            CommonParameter::Duration => {
                self.duration = good(read_duration(value))?;
                Ok(())
            },
            CommonParameter::IdleDecay => {
                self.idle_decay = good(read_flag(value))?;
                Ok(())
            },
            CommonParameter::Perpetual => {
                self.perpetual = good(read_flag(value))?;
                Ok(())
            },
            CommonParameter::Templating => {
                self.template = good(read_templating(value))?;
                Ok(())
            },
        }
    }

    fn set_name(&mut self, alloc: Global, blocks: &[Block], value: &[u8]) -> Result<(), LineFault>
        ensures read { IfOk result (λ _. and_then (with_behavior_name blocks.now self.old) (name_value value.now) ≡ Ok self.new) }
        ensures refused { IfErr result (λ fault. IsLineFault fault (and_then (with_behavior_name blocks.now self.old) (name_value value.now))) }
    {
        let name = name_in(alloc, value)?;
        if is_taken(blocks, value) {
            return Err(LineFault::Refused(Cause::B4));
        }
        self.name = Some(name);
        Ok(())
    }

    fn add_condition(&mut self, alloc: Global, value: &[u8]) -> Result<(), LineFault>
        requires { length value.now < 2 ^ 32 }
        ensures read { IfOk result (λ _. and_then (with_behavior_condition self.old) (ok_or (condition_of value.now) Cause.B5) ≡ Ok self.new) }
        ensures refused { IfErr result (λ fault. IsLineFault fault (and_then (with_behavior_condition self.old) (ok_or (condition_of value.now) Cause.B5))) }
    {
        let cond = condition_in(alloc, value)?;
        add_cond(&mut self.conds, cond)
    }

    // One flag more, for which there is room.
    fn one_flag(&self, alloc: Global, value: &[u8]) -> Result<Pair, LineFault>
        ensures pair { IfOk result (λ pair. one_flag self.now value.now ≡ Ok pair) }
        ensures refused { IfErr result (λ fault. IsLineFault fault (one_flag self.now value.now)) }
    {
        let pair = flag_in(alloc, value)?;
        if self.flags() >= MOST_FLAGS {
            return Err(LineFault::Refused(Cause::B9));
        }
        Ok(pair)
    }

    // How many flags of all kinds it has.
    fn flags(&self) -> u128
        ensures { result ≡ flags_in self.now }
    {
        self.runflags.len() as u128
            + self.idleflags.len() as u128
            + self.activeflags.len() as u128
            + self.inactiveflags.len() as u128
            + self.endflags.len() as u128
    }
}

// Whether one of these behaviours has this name.
fn is_taken(blocks: &[Block], name: &[u8]) -> bool
    ensures { result ≡ is_taken blocks.now name.now }
{
    blocks.iter().any(|block| block.common.name.bytes() == name)
}

// A parameter that the type of its behaviour doesn't have.
#[inline(never)]
fn add_unused(alloc: Global, file: &mut BhvFile, line: u32, name: &[u8]) -> Result<(), LineFault>
    requires { is_name name.now ≡ true }
    ensures added { OnOk result (file.new ≡ record file.old { unused = file.old.unused ++ record { line = line; name = name.now } ∷ [] }) }
    ensures refused { IfErr result (λ fault. fault ≡ LineFault.NoMemory) }
    ensures decls { file.new.decls ≡ file.old.decls }
{
    let Ok(name) = Txt::new(alloc, name) else {
        return Err(LineFault::NoMemory);
    };
    file.unused.add(Unused { line, name })?;
    Ok(())
}
