ghost use Rattle.std.specs.Prelude.{◌≡◌, ◌≢◌, ℕ, ◌++◌, List, [], Some, None, Ok, Err, MatchResult, IfOk, IfErr, codes, option_map};
ghost use Rattle.serde_json.specs.View.{members_view};
ghost use Rattle.serde_json.specs.Errors.{IsMemory};
ghost use Rattle.json_values.specs.declared.fault.InputKind.TheVariants.{Json, Memory as WantOfMemory};
ghost use Rattle.json_values.specs.Walk.{Reading, Leaves, IsStop, onto, under, fault_at, extra as extra_of, no_extra};
ghost use Rattle.hy_bits.specs.Shape.{FitPorts};
ghost use Rattle.hy_bits.specs.Ports.{ports_of, owners, own_of};
ghost use Rattle.json_values.specs.Names.{IsSetOf};
ghost use Rattle.json_values.specs.Meaning.{IsText, AreTexts, IsFirstFault};
ghost use Rattle.json_values.specs.File.{Tells, object_reading, members_of_text, file_words as words_of_file, port_words as words_of_port, own_port as words_of_own, ports_words as words_of_ports, names_of_role, own_words, all_words as words_of_all, both_words, in_file};

use crate::fault::{InputFault, InputKind, Stop};
use crate::walk::{extra_member, extra_stop, fault, member_words, stop_under};
use hy_bits::{Inputs, Memory, Port, Role, Text};
use serde_json::{Category, Error, Map, Value};
use std::alloc::Global;
use std::collections::BTreeSet;

/// The words of all ports, from the texts of both parties, or the first fault: any of A comes before any of B. It takes
/// time linear in the texts, but for the look-up of names: n ports or fields take n log n comparisons.
#[tactic(auto, using(crate::proofs::Laws::texts_give, crate::proofs::Fitting::both_fit, crate::proofs::Fitting::both_own))]
pub fn inputs_of(alloc: Global, a: &[u8], b: &[u8], ports: &[Port]) -> Result<Inputs, InputFault>
    // The words, or the first fault.
    ensures exact { Tells result (both_words ports.now a.now b.now) }

    // What is read is what the texts say.
    ensures says { IfOk result (AreTexts ports.now a.now b.now) }

    // There is one word for each leaf of the ports, in its width.
    ensures fits { IfOk result (FitPorts ports.now) }

    // Each party's text by itself says the words of the party's leaves among all.
    ensures own { IfOk result (λ inputs. IsText Role.P0 ports.now a.now (own_of Role.P0 (owners ports.now) inputs) × IsText Role.P1 ports.now b.now (own_of Role.P1 (owners ports.now) inputs)) }

    // A fault is the first of A's text, or A's text has none and it is the first of B's.
    ensures first { IfErr result (λ fault. fault.fault ≢ WantOfMemory → IsFirstFault ports.now a.now b.now fault) }

    // Texts that say words have no fault: only memory can be wanting.
    ensures only { IfErr result (λ fault. fault.fault ≢ WantOfMemory → (words : List ℕ) → AreTexts ports.now a.now b.now words → ⊥) }
{
    match read_both(alloc, a, b, ports) {
        Ok(words) => Ok(Inputs::new(words)),
        Err(fault) => Err(fault),
    }
}

/// The words of all ports, in order: first each text by itself, then port after port.
fn read_both(alloc: Global, a: &[u8], b: &[u8], ports: &[Port]) -> Result<Vec<u64>, InputFault>
    ensures words { IfOk result (λ words. both_words ports.now a.now b.now ≡ Ok words.items) }
    ensures fault { IfErr result (λ fault. fault.fault ≢ WantOfMemory → both_words ports.now a.now b.now ≡ Err fault) }
{
    let a = read(alloc, a, Role::P0, ports)?;
    let b = read(alloc, b, Role::P1, ports)?;
    let mut words = Vec::new(alloc);
    match all_words(alloc, ports, &a.members, &b.members, &mut words) {
        Ok(()) => Ok(words),
        Err(stop) => Err(fault_of(alloc, Role::P0, stop)),
    }
}

/// The words of one party's ports, from its text, or the first fault of that text. It takes time as `inputs_of` does.
#[tactic(auto, using(crate::proofs::Laws::text_gives, crate::proofs::Fitting::own_fits))]
pub fn own_inputs(
    alloc: Global,
    text: &[u8],
    role: Role,
    ports: &[Port],
) -> Result<Inputs, InputFault>
    // The words, or the first fault.
    ensures exact { Tells result (in_file role (own_words role ports.now text.now)) }

    // What is read is what the text says.
    ensures says { IfOk result (λ inputs. IsText role ports.now text.now inputs) }

    // There is one word for each leaf of the party's ports, in its width.
    ensures fits { IfOk result (FitPorts (ports_of role ports.now)) }

    // A text that says words has no fault: only memory can be wanting.
    ensures only { IfErr result (λ fault. fault.fault ≢ WantOfMemory → (words : List ℕ) → IsText role ports.now text.now words → ⊥) }
{
    match read(alloc, text, role, ports) {
        Ok(own) => Ok(Inputs::new(own.words)),
        Err(fault) => Err(fault),
    }
}

/// A party's text that has no fault: its members, and the words of the party's ports.
#[derive(Drop)]
struct Own {
    members: Map<String, Value>,
    words: Vec<u64>,
}

fn read(alloc: Global, text: &[u8], role: Role, ports: &[Port]) -> Result<Own, InputFault>
    ensures members { IfOk result (λ own. members_of_text text.now ≡ Some (members_view own.members.entries)) }
    ensures words { IfOk result (λ own. own_words role ports.now text.now ≡ Ok own.words.items) }
    ensures fault { IfErr result (λ fault. fault.fault ≢ WantOfMemory → in_file role (own_words role ports.now text.now) ≡ Err fault) }
{
    let members = match object_of(alloc, text) {
        Ok(members) => members,
        Err(stop) => return Err(fault_of(alloc, role, stop)),
    };
    let mut words = Vec::new(alloc);
    match file_words(alloc, role, ports, &members, &mut words) {
        Ok(()) => Ok(Own { members, words }),
        Err(stop) => Err(fault_of(alloc, role, stop)),
    }
}

/// The fault of a stop in the text of this party.
fn fault_of(alloc: Global, role: Role, stop: Stop) -> InputFault
    ensures { (reading : Reading) → IsStop stop reading → result.fault ≢ WantOfMemory → in_file role reading ≡ Err result }
{
    match stop {
        Stop::Fault(fault) => InputFault {
            fault: fault.kind,
            file: role,
            name: fault.path,
        },
        Stop::Memory => InputFault {
            fault: InputKind::Memory,
            file: role,
            name: Text::new(Vec::new(alloc)),
        },
    }
}

/// The members of the object that a text is.
#[tactic(auto, using(crate::proofs::Readings::members_of_no_text, crate::proofs::Readings::members_of_a_text))]
fn object_of(alloc: Global, text: &[u8]) -> Result<Map<String, Value>, Stop>
    ensures { MatchResult result
        (λ members. members_of_text text.now ≡ Some (members_view members.entries))
        (λ stop. IsStop stop (object_reading (members_of_text text.now))) }
{
    let Ok(text) = str::from_utf8(text) else {
        return Err(fault(alloc, InputKind::Json));
    };
    let value = match Value::from_str(alloc, text) {
        Ok(value) => value,
        Err(error) => return Err(refusal(alloc, &error)),
    };
    match value {
        Value::Object(members) => Ok(members),
        _other => Err(fault(alloc, InputKind::Json)),
    }
}

/// The stop of a text that was not read.
fn refusal(alloc: Global, error: &Error) -> Stop
    ensures { (reading : Reading) → (¬ IsMemory error.now → reading ≡ fault_at Json []) → IsStop result reading }
{
    if error.classify() == Category::Memory {
        Stop::Memory
    } else {
        fault(alloc, InputKind::Json)
    }
}

/// Appends the words of a party's ports, and stops at a member that is none of them.
fn file_words(
    alloc: Global,
    role: Role,
    ports: &[Port],
    members: &Map<String, Value>,
    words: &mut Vec<u64>,
) -> Result<(), Stop>
    ensures { Leaves words.new.items result (onto words.old.items (words_of_file role ports.now (Some (members_view members.now.entries)))) }
{
    ports_words(alloc, role, ports, members, words)?;
    no_extra_port(alloc, role, ports, members)
}

fn ports_words(
    alloc: Global,
    role: Role,
    ports: &[Port],
    members: &Map<String, Value>,
    words: &mut Vec<u64>,
) -> Result<(), Stop>
    ensures { Leaves words.new.items result (onto words.old.items (words_of_ports role ports.now (members_view members.now.entries))) }
{
    for port in ports {
        own_port(alloc, role, port, members, words)?;
    }
    Ok(())
}

/// Appends the words of one port, where it is the party's.
fn own_port(
    alloc: Global,
    role: Role,
    port: &Port,
    members: &Map<String, Value>,
    words: &mut Vec<u64>,
) -> Result<(), Stop>
    ensures { Leaves words.new.items result (onto words.old.items (words_of_own role port.now (members_view members.now.entries))) }
{
    if port.role == role {
        port_words(alloc, port, members, words)
    } else {
        Ok(())
    }
}

/// Appends the words of all ports, each from the members of its party.
fn all_words(
    alloc: Global,
    ports: &[Port],
    a: &Map<String, Value>,
    b: &Map<String, Value>,
    words: &mut Vec<u64>,
) -> Result<(), Stop>
    ensures { Leaves words.new.items result (onto words.old.items (words_of_all ports.now (members_view a.now.entries) (members_view b.now.entries))) }
{
    for port in ports {
        let members = match port.role {
            Role::P0 => a,
            Role::P1 => b,
        };
        port_words(alloc, port, members, words)?;
    }
    Ok(())
}

/// Appends the words of one port.
fn port_words(
    alloc: Global,
    port: &Port,
    members: &Map<String, Value>,
    words: &mut Vec<u64>,
) -> Result<(), Stop>
    ensures { Leaves words.new.items result (onto words.old.items (words_of_port port.now (members_view members.now.entries))) }
{
    let name = port.name.as_bytes();
    match member_words(alloc, name, &port.shape, members, words) {
        Ok(()) => Ok(()),
        Err(stop) => Err(stop_under(alloc, &[], name, stop)),
    }
}

/// Stops at the least member by bytes that is none of the party's ports.
fn no_extra_port(
    alloc: Global,
    role: Role,
    ports: &[Port],
    members: &Map<String, Value>,
) -> Result<(), Stop>
    ensures { (words : List ℕ) → Leaves words result (onto words (no_extra (extra_of (names_of_role role ports.now) (members_view members.now.entries)))) }
{
    let names = port_names(alloc, role, ports)?;
    match extra_member(&names, members) {
        Some(name) => Err(extra_stop(alloc, name)),
        None => Ok(()),
    }
}

/// The names of the party's ports.
fn port_names(alloc: Global, role: Role, ports: &[Port]) -> Result<BTreeSet<&[u8]>, Memory>
    ensures { IfOk result (IsSetOf (names_of_role role ports.now)) }
{
    let mut names = BTreeSet::new(alloc);
    for port in ports {
        if port.role == role {
            names.insert(port.name.as_bytes())?;
        }
    }
    Ok(names)
}
