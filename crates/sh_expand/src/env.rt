//! The environment of a shell.

ghost use Rattle.std.specs.Prelude.{◌≡◌, ◌<◌, ◌≤◌, ◌↔◌, ◌⊎◌, ℕ, ℤ, [], Ok, Err, Some, None, IfOk, OnOk, OnErr, not, drop, min, ◌-◌, ◌^◌, length};
ghost use Rattle.std.specs.List.{prefix_len};
ghost use Rattle.std.specs.Str.{bytes_eq};
ghost use Rattle.sh_arith.specs.Text.{Follows};
ghost use Rattle.sh_arith.specs.Names.{lookup};
ghost use Rattle.sh_arith.specs.Grammar.{IsValue};
ghost use Rattle.sh_expand.specs.Environment.{put, without, size, begun};
ghost use Rattle.sh_expand.specs.declared.fault.ExpandFault.TheVariants as faults;

use crate::fault::ExpandFault;
use crate::fields::TEXT_LIMIT;
use bd_dev::{Bytes, Memory, Names};
use sh_arith::{evaluate, lookup};
use std::alloc::Global;
use std::marker::Model;

/// The most bytes of all variables, names and values together.
pub const VARIABLES_LIMIT: usize = 4_194_304;

/// The options of a shell: `-e` and `-u` (POSIX.1-2017, Shell Command Language, 2.14, `set`).
#[derive(Clone, Copy, Debug, PartialEq, Eq)]
pub struct Flags {
    pub errexit: bool,
    pub nounset: bool,
}

/// What a shell knows by name and number: variables, positional words, options and the last status.
#[derive(Drop)]
pub struct Env {
    alloc: Global,
    variables: Vec<(Bytes, Bytes)>,
    words: Names,
    flags: Flags,
    last: u8,
}

impl Model for Env {
    ghost use Rattle.sh_expand.specs.State.{Environment};

    ghost Value = { Environment };

    ghost view = { λ e. record { variables = e.variables.items; words = e.words; flags = e.flags; last = e.last } };
}

fn copy_bytes(alloc: Global, bytes: &Bytes) -> Result<Bytes, Memory>
    ensures { IfOk result (λ copy. copy ≡ bytes.now) }
{
    Ok(Bytes::from_slice(alloc, bytes.as_slice())?)
}

fn copy_variables(
    alloc: Global,
    variables: &[(Bytes, Bytes)],
) -> Result<Vec<(Bytes, Bytes)>, Memory>
    ensures { IfOk result (λ copy. copy.items ≡ variables.now) }
{
    let mut all = Vec::new(alloc);
    for (name, value) in variables {
        let name = copy_bytes(alloc, name)?;
        let value = copy_bytes(alloc, value)?;
        all.push((name, value))?;
    }
    Ok(all)
}

fn copy_words(alloc: Global, words: &[Bytes]) -> Result<Names, Memory>
    ensures { IfOk result (λ copy. copy ≡ words.now) }
{
    let mut all = Names::new(alloc);
    for word in words {
        all.push(copy_bytes(alloc, word)?)?;
    }
    Ok(all)
}

// how many pairs stand before the first of this name
fn place_of(variables: &[(Bytes, Bytes)], name: &[u8]) -> usize
    ensures { result ≡ prefix_len (λ pair. not (bytes_eq pair.0 name.now)) variables.now }
{
    for (at, (key, _)) in variables.iter().enumerate() {
        if key.as_slice() == name {
            return at;
        }
    }
    variables.len()
}

// the bytes of names and values together, at most those that a number of 64 bits counts
fn size_of(variables: &[(Bytes, Bytes)]) -> usize
    ensures { result ≡ min (size variables.now) (2 ^ 64 - 1) }
{
    let mut total = 0usize;
    for (name, value) in variables {
        total = total
            .saturating_add(name.as_slice().len())
            .saturating_add(value.as_slice().len());
    }
    total
}

// the same once the name has the value
fn size_with(variables: &[(Bytes, Bytes)], name: &[u8], value: &[u8]) -> usize
    ensures { result ≡ min (size (put name.now value.now variables.now)) (2 ^ 64 - 1) }
{
    let (before, rest) = variables.split_at(place_of(variables, name));
    size_of(before)
        .saturating_add(name.len())
        .saturating_add(value.len())
        .saturating_add(size_of(after_first(rest)))
}

fn after_first(variables: &[(Bytes, Bytes)]) -> &[(Bytes, Bytes)]
    ensures { result.now ≡ drop 1 variables.now }
{
    match variables {
        [] => variables,
        [_, rest @ ..] => rest,
    }
}

// gives the name the value
fn put(
    alloc: Global,
    variables: &mut Vec<(Bytes, Bytes)>,
    name: &[u8],
    value: &[u8],
) -> Result<(), Memory>
    ensures done { OnOk result (variables.new.items ≡ put name.now value.now variables.old.items) }
    ensures unchanged { OnErr result (variables.new.items ≡ variables.old.items) }
{
    let value = Bytes::from_slice(alloc, value)?;
    let at = place_of(variables.as_slice(), name);
    if at < variables.len() {
        let pair = &mut variables[at];
        pair.1 = value;
    } else {
        let name = Bytes::from_slice(alloc, name)?;
        variables.push((name, value))?;
    }
    Ok(())
}

// takes every pair of the name away
fn remove_all(variables: &mut Vec<(Bytes, Bytes)>, name: &[u8])
    ensures { variables.new.items ≡ without name.now variables.old.items }
{
    'pairs: loop {
        let at = place_of(variables.as_slice(), name);
        if at >= variables.len() {
            return;
        }
        let _pair = variables.remove(at);
    }
}

impl Env {
    /// An environment with these variables, the options off, no positional words and the status 0. `Memory` where
    /// memory runs out.
    pub fn new(alloc: Global, start: &[(Bytes, Bytes)]) -> Result<Env, Memory>
        ensures { IfOk result (λ env. env ≡ begun start.now) }
    {
        Ok(Env {
            alloc,
            variables: copy_variables(alloc, start)?,
            words: Names::new(alloc),
            flags: Flags {
                errexit: false,
                nounset: false,
            },
            last: 0,
        })
    }

    /// The same environment again, as a subshell has it. `Memory` where memory runs out.
    pub fn copy(&self) -> Result<Env, Memory>
        ensures { IfOk result (λ env. env ≡ self.now) }
    {
        Ok(Env {
            alloc: self.alloc,
            variables: copy_variables(self.alloc, self.variables.as_slice())?,
            words: copy_words(self.alloc, self.words.as_slice())?,
            flags: self.flags,
            last: self.last,
        })
    }

    fn variables(&self) -> &[(Bytes, Bytes)]
        ensures { result.now ≡ self.now.variables }
    {
        self.variables.as_slice()
    }

    /// The value of a variable, `None` where it isn't set.
    pub fn get(&self, name: &[u8]) -> Option<&[u8]>
        ensures { Follows result (lookup name.now self.now.variables) }
    {
        lookup(self.variables.as_slice(), name)
    }

    /// Gives a variable a value. `TextLong` where the value has more than 1,048,576 bytes, or where all variables would
    /// have more than 4,194,304, names and values together. An error changes nothing.
    pub fn set(&mut self, name: &[u8], value: &[u8]) -> Result<(), ExpandFault>
        ensures set { OnOk result (self.new ≡ record self.old { variables = put name.now value.now self.old.variables }) }
        ensures long { (result ≡ Err faults.TextLong) ↔ ((TEXT_LIMIT < length value.now)
            ⊎ (VARIABLES_LIMIT < size (put name.now value.now self.old.variables))) }
        ensures kind { result ≡ Err faults.Bad → ⊥ }
        ensures unchanged { OnErr result (self.new ≡ self.old) }
    {
        if value.len() > TEXT_LIMIT {
            return Err(ExpandFault::TextLong);
        }
        if size_with(self.variables.as_slice(), name, value) > VARIABLES_LIMIT {
            return Err(ExpandFault::TextLong);
        }
        put(self.alloc, &mut self.variables, name, value)?;
        Ok(())
    }

    /// Takes a variable away, if it is set.
    pub fn unset(&mut self, name: &[u8])
        ensures { self.new ≡ record self.old { variables = without name.now self.old.variables } }
    {
        remove_all(&mut self.variables, name);
    }

    /// The positional words.
    pub fn words(&self) -> &[Bytes]
        ensures { result.now ≡ self.now.words }
    {
        self.words.as_slice()
    }

    /// Has these positional words.
    pub fn set_words(&mut self, words: Names)
        ensures { self.new ≡ record self.old { words = words } }
    {
        self.words = words;
    }

    /// The options.
    pub fn flags(&self) -> Flags
        ensures { result ≡ self.now.flags }
    {
        self.flags
    }

    /// Has these options.
    pub fn set_flags(&mut self, flags: Flags)
        ensures { self.new ≡ record self.old { flags = flags } }
    {
        self.flags = flags;
    }

    /// The last status.
    pub fn last(&self) -> u8
        ensures { result ≡ self.now.last }
    {
        self.last
    }

    /// Has this last status.
    pub fn set_last(&mut self, status: u8)
        ensures { self.new ≡ record self.old { last = status } }
    {
        self.last = status;
    }
}

/// The value of an arithmetic expression, in which names stand for variables: `sh_arith::evaluate`. Its only error is
/// `Bad`, where there is none. Takes no memory.
pub fn arithmetic(env: &Env, text: &[u8]) -> Result<i64, ExpandFault>
    ensures value { (v : ℤ) → (result ≡ Ok v) ↔ IsValue env.now.variables text.now v }
    ensures bad { (result ≡ Err faults.Bad) ↔ ((v : ℤ) → IsValue env.now.variables text.now v → ⊥) }
    ensures kind { OnErr result (result ≡ Err faults.Bad) }
{
    match evaluate(env.variables(), text) {
        Ok(value) => Ok(value),
        Err(_) => Err(ExpandFault::Bad),
    }
}
