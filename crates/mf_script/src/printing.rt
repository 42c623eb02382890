//! The text of a script, written line by line.

ghost use Rattle.std.specs.Prelude.{◌≡◌, ◌≤◌, ◌∷◌, ◌++◌, [], ℕ, List, length, map, IfOk, OnOk};
ghost use Rattle.std.specs.Prelude.{option_copied};
ghost use Rattle.std.specs.List.{flat_map};
ghost use Rattle.mf_text.specs.Decimal.{decimal_text};
ghost use Rattle.mf_text.specs.Lines.{lines_of};
ghost use Rattle.mf_lines.specs.declared.forms.Form.TheVariants as says;
ghost use Rattle.mf_lines.specs.declared.parts.Item.TheVariants as item;
ghost use Rattle.mf_lines.specs.Words.{word_text, content_text};
ghost use Rattle.mf_lines.specs.Meaning.{names_in};
ghost use Rattle.mf_lines.specs.LineTexts.{line_text};
ghost use Rattle.mf_script.specs.Printing.{client_forms, item_forms, block_forms, policy_forms};
ghost use Rattle.mf_script.specs.Printing.{next_line, lines_text, script_text, AreAlike};
ghost use Rattle.mf_script.specs.Scripts.{block_of, script_with, IsScript};

use crate::script::{NamedFamily, Script};
use mf_lines::{
    Act, ActText, Client, Command, Content, ContentWord, FileLine, Item, LineWord, name_of,
};
use mf_policy::Policy;
use mf_shape::Stage;
use mf_text::{push_decimal, push_hex};
use std::alloc::{AllocError, Global};

// An LF, and the word that a line begins with.
fn begin(out: &mut Vec<u8>, word: LineWord) -> Result<(), AllocError>
    ensures { OnOk result (out.new.items ≡ out.old.items ++ 10 ∷ word_text word) }
{
    out.push(b'\n')?;
    out.extend_from_slice(word.text().as_bytes())
}

// A space, and a word.
fn push_word(out: &mut Vec<u8>, word: &[u8]) -> Result<(), AllocError>
    ensures { OnOk result (out.new.items ≡ out.old.items ++ 32 ∷ word.now) }
{
    out.push(b' ')?;
    out.extend_from_slice(word)
}

// A space, and a number.
fn push_number(out: &mut Vec<u8>, n: u64) -> Result<(), AllocError>
    ensures { OnOk result (out.new.items ≡ out.old.items ++ 32 ∷ decimal_text n) }
{
    out.push(b' ')?;
    push_decimal(out, n)
}

// The line of the servers.
#[tactic(auto, unfolding(mf_lines::specs::LineTexts::line_text), using(std::proofs::lemmas::List::append_assoc))]
fn push_servers(out: &mut Vec<u8>, servers: u32) -> Result<(), AllocError>
    ensures { OnOk result (out.new.items ≡ out.old.items ++ next_line [] (says.Servers servers)) }
{
    begin(out, LineWord::Servers)?;
    push_number(out, u64::from(servers))
}

// The line of the chunk size.
#[tactic(auto, unfolding(mf_lines::specs::LineTexts::line_text), using(std::proofs::lemmas::List::append_assoc))]
fn push_chunk(out: &mut Vec<u8>, chunk: u32) -> Result<(), AllocError>
    ensures { OnOk result (out.new.items ≡ out.old.items ++ next_line [] (says.Chunk chunk)) }
{
    begin(out, LineWord::Chunk)?;
    push_number(out, u64::from(chunk))
}

// The line of the points.
fn push_points(out: &mut Vec<u8>, points: &[u8]) -> Result<(), AllocError>
    ensures { OnOk result (out.new.items ≡ out.old.items ++ next_line [] (says.Points points.now)) }
{
    begin(out, LineWord::Points)?;
    for point in points {
        push_number(out, u64::from(*point))?;
    }
    Ok(())
}

// The line of a stage.
#[tactic(auto, unfolding(mf_lines::specs::LineTexts::line_text), using(std::proofs::lemmas::List::append_assoc))]
fn push_stage(out: &mut Vec<u8>, stage: Stage) -> Result<(), AllocError>
    ensures { OnOk result (out.new.items ≡ out.old.items ++ next_line [] (says.Stage stage)) }
{
    begin(out, LineWord::Stage)?;
    push_number(out, u64::from(stage.width))?;
    push_number(out, u64::from(stage.parities))?;
    push_number(out, u64::from(stage.copies))
}

// The line of thresholds.
fn push_thresholds(out: &mut Vec<u8>, thresholds: &[u64]) -> Result<(), AllocError>
    ensures { OnOk result
        (out.new.items ≡ out.old.items ++ next_line [] (says.Policy thresholds.now)) }
{
    begin(out, LineWord::Policy)?;
    for threshold in thresholds {
        push_number(out, *threshold)?;
    }
    Ok(())
}

// The line of a policy, if there is one.
fn push_policy(out: &mut Vec<u8>, policy: Option<&Policy>) -> Result<(), AllocError>
    ensures { OnOk result (out.new.items
        ≡ out.old.items ++ lines_text [] (policy_forms (option_copied policy.entry))) }
{
    match policy {
        None => Ok(()),
        Some(policy) => push_thresholds(out, policy.thresholds()),
    }
}

// The line of a file.
#[tactic(auto, unfolding(mf_lines::specs::LineTexts::line_text), using(std::proofs::lemmas::List::append_assoc))]
fn push_file(out: &mut Vec<u8>, file: &FileLine) -> Result<(), AllocError>
    ensures { OnOk result (out.new.items ≡ out.old.items ++ next_line [] (says.File file.now)) }
{
    begin(out, LineWord::File)?;
    push_word(out, file.name.as_str().as_bytes())?;
    match &file.content {
        Content::Empty => push_word(out, ContentWord::Empty.text().as_bytes()),
        Content::Text(bytes) => {
            push_word(out, ContentWord::Text.text().as_bytes())?;
            push_word(out, bytes.as_slice())
        }
        Content::Hex(bytes) => {
            push_word(out, ContentWord::Hex.text().as_bytes())?;
            out.push(b' ')?;
            push_hex(out, bytes.as_slice())
        }
        Content::Pattern { length, start } => {
            push_word(out, ContentWord::Pattern.text().as_bytes())?;
            push_number(out, u64::from(*length))?;
            push_number(out, u64::from(*start))
        }
    }
}

// The line of a command.
#[tactic(auto, using(std::proofs::lemmas::List::append_assoc))]
fn push_command(
    alloc: Global,
    out: &mut Vec<u8>,
    files: &[FileLine],
    act: Act,
) -> Result<(), AllocError>
    ensures { OnOk result
        (out.new.items ≡ out.old.items ++ next_line (names_in files.now) (says.Command act)) }
{
    let text = format!(in alloc; "{}", ActText { files, act })?;
    out.push(b'\n')?;
    out.extend_from_slice(text.as_bytes())
}

// A dump line.
#[tactic(auto, unfolding(mf_lines::specs::LineTexts::line_text), using(std::proofs::lemmas::List::append_assoc))]
fn push_dump(out: &mut Vec<u8>, files: &[FileLine], file: u32) -> Result<(), AllocError>
    ensures { OnOk result
        (out.new.items ≡ out.old.items ++ next_line (names_in files.now) (says.Dump file)) }
{
    begin(out, LineWord::Dump)?;
    push_word(out, name_of(files, file).as_bytes())
}

// The lines of the stages.
fn push_stages(out: &mut Vec<u8>, stages: &[Stage]) -> Result<(), AllocError>
    ensures { OnOk result
        (out.new.items ≡ out.old.items ++ lines_text [] (map says.Stage stages.now)) }
{
    for stage in stages {
        push_stage(out, *stage)?;
    }
    Ok(())
}

// The lines of a family.
fn push_family(out: &mut Vec<u8>, named: &NamedFamily) -> Result<(), AllocError>
    ensures { OnOk result
        (out.new.items ≡ out.old.items ++ lines_text [] (block_forms (block_of named.now))) }
{
    push_points(out, named.family.points())?;
    push_stages(out, named.family.shape().stages())
}

// The lines of the families.
fn push_families(out: &mut Vec<u8>, families: &[NamedFamily]) -> Result<(), AllocError>
    ensures { OnOk result
        (out.new.items ≡ out.old.items
        ++ lines_text [] (flat_map block_forms (map block_of families.now))) }
{
    for named in families {
        push_family(out, named)?;
    }
    Ok(())
}

// The lines of the files.
fn push_files(out: &mut Vec<u8>, files: &[FileLine]) -> Result<(), AllocError>
    ensures { OnOk result
        (out.new.items ≡ out.old.items ++ lines_text [] (map says.File files.now)) }
{
    for file in files {
        push_file(out, file)?;
    }
    Ok(())
}

// The lines of a client.
fn push_client(
    alloc: Global,
    out: &mut Vec<u8>,
    files: &[FileLine],
    client: &Client,
) -> Result<(), AllocError>
    ensures { OnOk result
        (out.new.items ≡ out.old.items
        ++ lines_text (names_in files.now) (client_forms client.now)) }
{
    begin(out, LineWord::Client)?;
    for command in client.commands.as_slice() {
        push_command(alloc, out, files, command.act)?;
    }
    Ok(())
}

// The line of ticks.
#[tactic(auto, unfolding(mf_lines::specs::LineTexts::line_text), using(std::proofs::lemmas::List::append_assoc))]
fn push_tick(out: &mut Vec<u8>, ticks: u64) -> Result<(), AllocError>
    ensures { OnOk result (out.new.items ≡ out.old.items ++ next_line [] (says.Tick ticks)) }
{
    begin(out, LineWord::Tick)?;
    push_number(out, ticks)
}

// The lines of a phase.
fn push_phase(
    alloc: Global,
    out: &mut Vec<u8>,
    files: &[FileLine],
    clients: &[Client],
) -> Result<(), AllocError>
    ensures { OnOk result (out.new.items
        ≡ out.old.items ++ lines_text (names_in files.now) (item_forms (item.Phase clients.now))) }
{
    begin(out, LineWord::Phase)?;
    for client in clients {
        push_client(alloc, out, files, client)?;
    }
    Ok(())
}

// The lines of an item.
fn push_item(
    alloc: Global,
    out: &mut Vec<u8>,
    files: &[FileLine],
    item: &Item,
) -> Result<(), AllocError>
    ensures { OnOk result
        (out.new.items ≡ out.old.items ++ lines_text (names_in files.now) (item_forms item.now)) }
{
    match item {
        Item::Tick(ticks) => push_tick(out, *ticks),
        Item::Phase(clients) => push_phase(alloc, out, files, clients.as_slice()),
    }
}

// The lines of the items.
fn push_items(
    alloc: Global,
    out: &mut Vec<u8>,
    files: &[FileLine],
    items: &[Item],
) -> Result<(), AllocError>
    ensures { OnOk result
        (out.new.items ≡ out.old.items
        ++ lines_text (names_in files.now) (flat_map item_forms items.now)) }
{
    for item in items {
        push_item(alloc, out, files, item)?;
    }
    Ok(())
}

// The dump lines.
fn push_dumps(out: &mut Vec<u8>, files: &[FileLine], dumps: &[u32]) -> Result<(), AllocError>
    ensures { OnOk result
        (out.new.items ≡ out.old.items
        ++ lines_text (names_in files.now) (map says.Dump dumps.now)) }
{
    for file in dumps {
        push_dump(out, files, *file)?;
    }
    Ok(())
}

// The text of a script of these parts.
fn print(
    alloc: Global,
    servers: u32,
    chunk: u32,
    families: &[NamedFamily],
    policy: Option<&Policy>,
    files: &[FileLine],
    items: &[Item],
    dumps: &[u32],
) -> Result<Vec<u8>, AllocError>
    ensures { IfOk result
        (λ v. v.items ≡ script_text (script_with servers chunk families.now
        (option_copied policy.entry) files.now [] items.now dumps.now)) }
{
    let mut out = Vec::from_slice(alloc, b"morph 1")?;
    push_servers(&mut out, servers)?;
    push_chunk(&mut out, chunk)?;
    push_families(&mut out, families)?;
    push_policy(&mut out, policy)?;
    push_files(&mut out, files)?;
    push_items(alloc, &mut out, files, items)?;
    push_dumps(&mut out, files, dumps)?;
    begin(&mut out, LineWord::End)?;
    Ok(out)
}

/// The text of a script: each line but the last ends with LF, and servers ascend behind `without`.
/// Where a text is this script, it is one too, and each such text has its lines, but for the order
/// of such servers, and so none is shorter. Fails only where memory runs out.
pub fn print_script(alloc: Global, script: &Script) -> Result<Vec<u8>, AllocError>
    ensures text { IfOk result (λ v. v.items ≡ script_text script.now) }
    ensures again { IfOk result (λ v. (text : List ℕ) → IsScript text script.now
        → IsScript v.items script.now) }
    ensures lines { IfOk result (λ v. (text : List ℕ) → IsScript text script.now
        → AreAlike (lines_of text) (lines_of v.items)) }
    ensures short { IfOk result
        (λ v. (text : List ℕ) → IsScript text script.now → length v.items ≤ length text) }
{
    print(
        alloc,
        script.servers,
        script.chunk,
        &script.families,
        script.policy.as_ref(),
        &script.files,
        &script.items,
        &script.dumps,
    )
}
