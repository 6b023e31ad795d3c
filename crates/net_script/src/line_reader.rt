//! One line of a script, read.

ghost use Rattle.std.specs.Prelude.{◌≡◌, ℕ, List, length, Err, Some, IfOk, IfErr, IsTrue, ◌↔◌};
ghost use Rattle.bd_dev.specs.declared.net.Arrival.{Arrival};
ghost use Rattle.bd_text.specs.V6.{SpellsV6};
ghost use Rattle.net_script.specs.Faults.{IsArrivalFault, IsAtFault, IsFlowFault, IsIfaceFault, IsLineFault, IsNextIface, IsTftpFault};
ghost use Rattle.net_script.specs.Keywords.{form_of, keyword_of, words_for};
ghost use Rattle.net_script.specs.Lines.{IsNewIface, Says, SpellsArrival, SpellsAt, SpellsFlow, SpellsIface, SpellsTftp};
ghost use Rattle.net_script.specs.Words.{word, words_of};
ghost use Rattle.net_script.specs.declared.fault.LineFault.TheVariants.{Bad};
ghost use Rattle.net_script.specs.declared.fault.ScriptKind.{ScriptKind};
ghost use Rattle.net_script.specs.declared.line.Line.{Line};
ghost use Rattle.net_script.specs.declared.line.Rounds.{Rounds};

use crate::fault::{LineFault, ScriptKind};
use crate::hosts::shown_server;
use crate::keywords::{Form, Keyword};
use crate::line::Line;
use crate::numbers::{bytes_in, port_in, rounds_in, time_in};
use crate::words::{Words, label_in};
use bd_dev::{Arrival, Bytes};
use bd_text::V6;
use flow_labels::{is_iface_name, tftp_label};
use std::alloc::Global;

/// How many interfaces a script has at most.
const MOST_IFACES: usize = 8;

/// Whether a name may be the next interface's.
fn may_follow(ifaces: &[Bytes], name: &[u8]) -> bool
    ensures { IsTrue result ↔ IsNextIface ifaces.now name.now }
{
    ifaces.len() < MOST_IFACES
        && is_iface_name(name)
        && !ifaces.iter().any(|iface| iface.as_slice() == name)
}

fn read_iface(alloc: Global, ifaces: &[Bytes], words: &Words<'_>) -> Result<Line, LineFault>
    requires { keyword_of (word words.now 0) ≡ Some Keyword.Iface }
    ensures found { IfOk result (λ line. (name : List ℕ) × (line ≡ Line.Iface name)
        × SpellsIface words.now name × IsNewIface ifaces.now name) }
    ensures only { (name : List ℕ) → SpellsIface words.now name → IsNewIface ifaces.now name
        → IfOk result (λ r. r ≡ Line.Iface name) }
    ensures bad { (kind : ScriptKind) → result ≡ Err (Bad kind) → IsIfaceFault ifaces.now words.now kind }
{
    words.are(2)?;
    let name = words.get(1);
    if !may_follow(ifaces, name) {
        return Err(LineFault::Bad(ScriptKind::Iface));
    }
    Ok(Line::Iface(Bytes::from_slice(alloc, name)?))
}

fn read_flow(alloc: Global, line: &[u8], words: &Words<'_>) -> Result<Line, LineFault>
    requires words { words.now ≡ words_of line.now }
    requires first { keyword_of (word words.now 0) ≡ Some Keyword.Flow }
    ensures found { IfOk result (λ said. (rounds : Rounds) × (label : List ℕ)
        × (said ≡ Line.Flow rounds label) × SpellsFlow line.now rounds label) }
    ensures only { (rounds : Rounds) (label : List ℕ) → SpellsFlow line.now rounds label
        → IfOk result (λ r. r ≡ Line.Flow rounds label) }
    ensures bad { (kind : ScriptKind) → result ≡ Err (Bad kind) → IsFlowFault words.now kind }
{
    if words.count() < 3 {
        return Err(LineFault::Bad(ScriptKind::Missing));
    }
    let rounds = rounds_in(words.get(1))?;
    let label = Bytes::from_slice(alloc, label_in(line))?;
    Ok(Line::Flow { rounds, label })
}

fn v6_in(word: &[u8]) -> Result<V6, ScriptKind>
    ensures found { IfOk result (λ address. SpellsV6 address.bytes word.now) }
    ensures only { (bytes : List ℕ) → SpellsV6 bytes word.now → result ≡ Ok (record { bytes = bytes }) }
    ensures bad { IfErr result (λ kind. kind ≡ ScriptKind.Address) }
{
    match V6::parse(word) {
        Some(address) => Ok(address),
        None => Err(ScriptKind::Address),
    }
}

/// What comes of an `at` line with the words of its form.
fn arrival_in(alloc: Global, form: Form, words: &Words<'_>) -> Result<Arrival, LineFault>
    requires first { keyword_of (word words.now 0) ≡ Some Keyword.At }
    requires form { form_of (word words.now 2) ≡ Some form }
    requires count { length words.now ≡ words_for form }
    ensures found { IfOk result (λ arrival. SpellsArrival words.now arrival) }
    ensures only { (arrival : Arrival) → SpellsArrival words.now arrival
        → IfOk result (λ r. r ≡ arrival) }
    ensures bad { (kind : ScriptKind) → result ≡ Err (Bad kind) → IsArrivalFault form words.now kind }
{
    match form {
        Form::Udp => {
            let port = port_in(words.get(3))?;
            let bytes = bytes_in(alloc, words.get(4))?;
            Ok(Arrival::Datagram { port, bytes })
        }
        Form::Tcp => {
            let bytes = bytes_in(alloc, words.get(3))?;
            Ok(Arrival::Stream(bytes))
        }
        Form::Echo => {
            let address = v6_in(words.get(3))?;
            let bytes = bytes_in(alloc, words.get(4))?;
            let from = address.bytes;
            Ok(Arrival::Echo { from, bytes })
        }
        Form::End => Ok(Arrival::End),
        Form::Reset => Ok(Arrival::Reset),
    }
}

fn read_at(alloc: Global, has_flow: bool, words: &Words<'_>) -> Result<Line, LineFault>
    requires { keyword_of (word words.now 0) ≡ Some Keyword.At }
    ensures found { IfOk result (λ said. (at : ℕ) × (arrival : Arrival)
        × (said ≡ Line.At at arrival) × SpellsAt words.now at arrival × IsTrue has_flow) }
    ensures only { (at : ℕ) (arrival : Arrival) → SpellsAt words.now at arrival → IsTrue has_flow
        → IfOk result (λ r. r ≡ Line.At at arrival) }
    ensures bad { (kind : ScriptKind) → result ≡ Err (Bad kind) → IsAtFault has_flow words.now kind }
{
    if words.count() < 3 {
        return Err(LineFault::Bad(ScriptKind::Missing));
    }
    let form = Form::named(words.get(2))?;
    words.are(form.words())?;
    if !has_flow {
        return Err(LineFault::Bad(ScriptKind::NoFlow));
    }
    let at = time_in(words.get(1))?;
    let arrival = arrival_in(alloc, form, words)?;
    Ok(Line::At { at, arrival })
}

fn read_tftp(alloc: Global, words: &Words<'_>) -> Result<Line, LineFault>
    requires { keyword_of (word words.now 0) ≡ Some Keyword.Tftp }
    ensures found { IfOk result (λ said. (rounds : Rounds) × (label file : List ℕ) × (every : ℕ)
        × (said ≡ Line.Tftp rounds label file every) × SpellsTftp words.now rounds label file every) }
    ensures only { (rounds : Rounds) (label file : List ℕ) (every : ℕ)
        → SpellsTftp words.now rounds label file every
        → IfOk result (λ r. r ≡ Line.Tftp rounds label file every) }
    ensures bad { (kind : ScriptKind) → result ≡ Err (Bad kind) → IsTftpFault words.now kind }
{
    words.are(6)?;
    let rounds = rounds_in(words.get(1))?;
    let server = shown_server(alloc, words.get(2))?;
    let every = time_in(words.get(5))?;
    let label = tftp_label(alloc, server.as_slice(), words.get(3))?;
    let file = Bytes::from_slice(alloc, words.get(4))?;
    Ok(Line::Tftp {
        rounds,
        label,
        file,
        every,
    })
}

/// Reads a line that is neither empty nor a comment, behind these interfaces and perhaps a `flow` line.
pub(crate) fn read_line(
    alloc: Global,
    ifaces: &[Bytes],
    has_flow: bool,
    line: &[u8],
) -> Result<Line, LineFault>
    ensures found { IfOk result (Says ifaces.now has_flow line.now) }
    ensures only { (said : Line) → Says ifaces.now has_flow line.now said
        → IfOk result (λ r. r ≡ said) }
    ensures bad { (kind : ScriptKind) → result ≡ Err (Bad kind) → IsLineFault ifaces.now has_flow line.now kind }
{
    let words = Words::new(alloc, line)?;
    if words.count() == 0 {
        return Err(LineFault::Bad(ScriptKind::Missing));
    }
    let keyword = Keyword::named(words.get(0))?;
    match keyword {
        Keyword::Iface => read_iface(alloc, ifaces, &words),
        Keyword::Flow => read_flow(alloc, line, &words),
        Keyword::At => read_at(alloc, has_flow, &words),
        Keyword::Tftp => read_tftp(alloc, &words),
    }
}
