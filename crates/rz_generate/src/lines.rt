//! The lines of a file.

ghost use Rattle.std.specs.Prelude.{◌≡◌, ◌<◌, ◌≤◌, ◌+◌, ◌-◌, ◌^◌, [], ◌∷◌, length, IfOk, OnOk, string_bytes};
ghost use Rattle.rz_script.specs.Lines.{IsDatum, IsWord};
ghost use Rattle.rz_script.specs.Scripts.{with_line};
ghost use Rattle.rz_generate.specs.Workload.{volume, path_of, create_line, put_line, get_line, last_block, puts, gets, file_lines, after_file, ends, with_lines};

use crate::draws::{next_draw, next_seed};
use rand_pcg::Lcg64Xsh32;
use rz_script::{Actor, Datum, Line, Operation, Script, Text, TreeCall};
use std::alloc::{AllocError, Global};

/// The path of a file.
#[tactic(auto, unfolding(crate::specs::Workload::path_of))]
pub fn path_of(alloc: Global, client: u8, file: u8) -> Result<String, AllocError>
    ensures { IfOk result (λ t. string_bytes t ≡ path_of client file) }
{
    format!(in alloc; "/f{client}_{file}")
}

/// A client makes a file.
fn push_create(alloc: Global, script: &mut Script, client: u8, path: &str) -> Result<(), AllocError>
    requires volume { script.old.volume ≡ volume }
    requires first { 1 ≤ client }
    requires last { client ≤ 64 }
    requires word { IsWord path.now }
    requires room { length script.old.lines < 2 ^ 32 - 1 }
    ensures { OnOk result (script.new ≡ with_line script.old (create_line client path.now)) }
{
    let path = Text::from_bytes(alloc, path.as_bytes())?;
    script.push(Line::Op {
        by: Actor::Client(client),
        op: Operation::Tree(TreeCall::Create { path }),
    })
}

/// A client writes a block.
fn push_put(
    alloc: Global,
    script: &mut Script,
    client: u8,
    path: &str,
    block: u32,
    datum: Datum,
) -> Result<(), AllocError>
    requires volume { script.old.volume ≡ volume }
    requires first { 1 ≤ client }
    requires last { client ≤ 64 }
    requires word { IsWord path.now }
    requires short { IsDatum 4096 datum }
    requires room { length script.old.lines < 2 ^ 32 - 1 }
    ensures { OnOk result (script.new ≡ with_line script.old (put_line client path.now block datum)) }
{
    let path = Text::from_bytes(alloc, path.as_bytes())?;
    let block = u64::from(block);
    script.push(Line::Op {
        by: Actor::Client(client),
        op: Operation::Put { path, block, datum },
    })
}

/// A client reads a block.
fn push_get(
    alloc: Global,
    script: &mut Script,
    client: u8,
    path: &str,
    block: u32,
) -> Result<(), AllocError>
    requires volume { script.old.volume ≡ volume }
    requires first { 1 ≤ client }
    requires last { client ≤ 64 }
    requires word { IsWord path.now }
    requires room { length script.old.lines < 2 ^ 32 - 1 }
    ensures { OnOk result (script.new ≡ with_line script.old (get_line client path.now block)) }
{
    let path = Text::from_bytes(alloc, path.as_bytes())?;
    let block = u64::from(block);
    script.push(Line::Op {
        by: Actor::Client(client),
        op: Operation::Get { path, block },
    })
}

/// A client writes each block of a file. Gives the last one, which a draw tells.
#[tactic(auto, unfolding(crate::specs::Workload::last_block))]
fn push_puts(
    alloc: Global,
    script: &mut Script,
    generator: &mut Lcg64Xsh32,
    client: u8,
    path: &str,
) -> Result<u32, AllocError>
    requires volume { script.old.volume ≡ volume }
    requires first { 1 ≤ client }
    requires last { client ≤ 64 }
    requires word { IsWord path.now }
    requires room { length script.old.lines + 40 < 2 ^ 32 - 1 }
    ensures lines { OnOk result (script.new ≡ with_lines script.old (puts client path.now generator.old)) }
    ensures after { OnOk result (generator.new ≡ after_file generator.old) }
    ensures last_is { IfOk result (λ b. b ≡ last_block generator.old) }
    ensures small { IfOk result (λ b. b < 40) }
    ensures count { IfOk result (λ b. length script.new.lines ≡ length script.old.lines + (b + 1)) }
{
    let last = next_draw(generator) % 40;
    'writes: for block in 0..last {
        let seed = next_seed(generator);
        let length = 4096;
        push_put(
            alloc,
            script,
            client,
            path,
            block,
            Datum::Made { length, seed },
        )?;
    }
    let seed = next_seed(generator);
    let length = 1 + next_draw(generator) % 4096;
    push_put(
        alloc,
        script,
        client,
        path,
        last,
        Datum::Made { length, seed },
    )?;
    Ok(last)
}

/// A client reads each of so many blocks of a file.
fn push_gets(
    alloc: Global,
    script: &mut Script,
    client: u8,
    path: &str,
    blocks: u32,
) -> Result<(), AllocError>
    requires volume { script.old.volume ≡ volume }
    requires first { 1 ≤ client }
    requires last { client ≤ 64 }
    requires word { IsWord path.now }
    requires few { blocks ≤ 40 }
    requires room { length script.old.lines + 40 < 2 ^ 32 - 1 }
    ensures lines { OnOk result (script.new ≡ with_lines script.old (gets client path.now blocks)) }
    ensures count { OnOk result (length script.new.lines ≡ length script.old.lines + blocks) }
{
    'reads: for block in 0..blocks {
        push_get(alloc, script, client, path, block)?;
    }
    Ok(())
}

/// A client makes a file, writes each of its blocks, and reads each.
pub fn push_file(
    alloc: Global,
    script: &mut Script,
    generator: &mut Lcg64Xsh32,
    client: u8,
    file: u8,
) -> Result<(), AllocError>
    requires volume { script.old.volume ≡ volume }
    requires first { 1 ≤ client }
    requires last { client ≤ 64 }
    requires room { length script.old.lines + 81 < 2 ^ 32 - 1 }
    ensures lines { OnOk result (script.new ≡ with_lines script.old (file_lines client (path_of client file) generator.old)) }
    ensures after { OnOk result (generator.new ≡ after_file generator.old) }
    ensures few { OnOk result (length script.new.lines ≤ length script.old.lines + 81) }
{
    let path = path_of(alloc, client, file)?;
    let path = path.as_str();
    push_create(alloc, script, client, path)?;
    let last = push_puts(alloc, script, generator, client, path)?;
    push_gets(alloc, script, client, path, last + 1)
}

/// After so many rounds a disk is lost and rebuilt, and all is played to its end.
pub fn push_ends(script: &mut Script) -> Result<(), AllocError>
    requires volume { script.old.volume ≡ volume }
    requires room { length script.old.lines + 4 < 2 ^ 32 - 1 }
    ensures { OnOk result (script.new ≡ with_lines script.old ends) }
{
    script.push(Line::Rounds { k: 2000 })?;
    script.push(Line::Lose { node: 3 })?;
    script.push(Line::Op {
        by: Actor::Rebuilder(1),
        op: Operation::Rebuild { node: 3 },
    })?;
    script.push(Line::Rest)
}
