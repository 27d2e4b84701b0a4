//! Servers that are compared, and the lines that the program prints for them.
ghost use Rattle.std.specs.Prelude.{◌≡◌, ◌++◌, IfOk, OnOk, string_bytes};
ghost use Rattle.gtid_report.specs.SetAnswers.{Answers};
ghost use Rattle.server_states.specs.States.{line, lines_of_sets, server_sets, server_lines, lines_behind, union_line, states_in, CanBeMade, Compares};

use crate::filling::gaps;
use crate::server::{Server, read_servers};
use crate::together::{Together, all_together, difference};
use gtid_report::{Fault, push_set};
use gtid_set::GtidSet;
use std::alloc::{AllocError, Global};
use std::marker::Model;

/// Appends a line: a name, a word between blanks, and a set, which is a hyphen if it is empty.
fn push_line(
    alloc: Global,
    out: &mut String,
    name: &str,
    word: &str,
    set: &GtidSet,
) -> Result<(), AllocError>
    ensures { OnOk result (string_bytes out.new ≡ string_bytes out.old ++ line name.now word.now set.now) }
{
    out.push_str(name)?;
    out.push_str(word)?;
    push_set(alloc, out, set)?;
    out.push_str("\n")
}

/// The sets of a server's lines.
#[derive(Drop)]
struct ServerSets {
    lacking: GtidSet,
    gaps: GtidSet,
    alone: GtidSet,
}

impl Model for ServerSets {
    ghost use Rattle.std.specs.Coded.{codes};
    ghost use Rattle.gtid_set.specs.Sets.{gtids_code};
    ghost use Rattle.server_states.specs.States.{SetsValue};

    ghost Value = { SetsValue };

    ghost coded = { Prim.hlevel (codes, gtids_code) };

    ghost view = { λ s. record { lacking = s.lacking; gaps = s.gaps; alone = s.alone } };
}

/// What a server lacks, its gaps, and what it alone has.
fn server_sets(alloc: Global, together: &Together, server: &Server) -> Result<ServerSets, Fault>
    ensures { Answers (λ sets. sets) result (server_sets together.now server.now) }
{
    let lacking = difference(alloc, together.all(), server.executed())?;
    let gaps = gaps(alloc, server.executed())?;
    let alone = difference(alloc, server.executed(), together.shared())?;
    Ok(ServerSets {
        lacking,
        gaps,
        alone,
    })
}

/// The lines of sets.
fn lines_of_sets(alloc: Global, name: &str, sets: &ServerSets) -> Result<String, AllocError>
    ensures { IfOk result (λ text. string_bytes text ≡ lines_of_sets name.now sets.now) }
{
    let mut out = String::new(alloc);
    push_line(alloc, &mut out, name, " lacks ", &sets.lacking)?;
    push_line(alloc, &mut out, name, " gaps ", &sets.gaps)?;
    push_line(alloc, &mut out, name, " alone ", &sets.alone)?;
    Ok(out)
}

/// Whether the lines of a server can be made.
fn check_server(alloc: Global, together: &Together, server: &Server) -> Result<(), Fault>
    ensures { CanBeMade (server_lines together.now server.now) result }
{
    let sets = server_sets(alloc, together, server)?;
    drop(sets);
    Ok(())
}

/// Whether the lines of all servers can be made. None is kept.
fn check_lines(alloc: Global, together: &Together, servers: &[Server]) -> Result<(), Fault>
    ensures { CanBeMade (lines_behind (union_line together.now) together.now servers.now) result }
{
    for server in servers {
        match check_server(alloc, together, server) {
            Ok(()) => {}
            Err(fault) => return Err(fault),
        }
    }
    Ok(())
}

/// Servers whose executed sets were compared. Their lines are made one server at a time.
#[derive(Drop)]
pub struct Compared {
    servers: Vec<Server>,
    together: Together,
}

impl Model for Compared {
    ghost use Rattle.std.specs.Coded.{codes};
    ghost use Rattle.gtid_set.specs.Sets.{gtids_code};
    ghost use Rattle.server_states.specs.States.{ComparedValue};

    ghost Value = { ComparedValue };

    ghost coded = { Prim.hlevel (codes, gtids_code) };

    ghost view = { λ c. record { servers = c.servers.items; together = c.together } };
}

impl Compared {
    /// The servers, in the order of their lines.
    pub fn servers(&self) -> &[Server]
        ensures { result.now ≡ self.now.servers }
    {
        &self.servers
    }

    /// The first line of the answer: `union <set>`, what one server at least has executed.
    pub fn union_line(&self, alloc: Global) -> Result<String, AllocError>
        ensures { IfOk result (λ text. string_bytes text ≡ union_line self.now.together) }
    {
        let mut text = String::new(alloc);
        push_line(alloc, &mut text, "union", " ", self.together.all())?;
        Ok(text)
    }

    /// The lines of a server: `<name> lacks <set>`, `<name> gaps <set>` and `<name> alone <set>`. The words and their order are our own.
    pub fn server_lines(&self, alloc: Global, server: &Server) -> Result<String, Fault>
        ensures { Answers string_bytes result (server_lines self.now.together server.now) }
    {
        let sets = server_sets(alloc, &self.together, server)?;
        let text = lines_of_sets(alloc, server.name(), &sets)?;
        Ok(text)
    }
}

/// Compares the executed sets of the servers in a text. What can't be made of any server's lines is refused here, so that the lines of all
/// servers, behind one another, are the answer.
pub fn compare(alloc: Global, text: &str) -> Result<Compared, Fault>
    ensures { Compares (states_in text.now) result }
{
    let servers = read_servers(alloc, text)?;
    let together = all_together(alloc, &servers)?;
    check_lines(alloc, &together, &servers)?;
    Ok(Compared { servers, together })
}
