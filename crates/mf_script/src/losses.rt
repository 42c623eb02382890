//! The lose lines of a script.

ghost use Rattle.std.specs.Prelude.{◌≡◌, ◌++◌, take, OnOk};
ghost use Rattle.std.specs.List.{flat_map};
ghost use Rattle.mf_lines.specs.Meaning.{phases_in};
ghost use Rattle.mf_script.specs.Losses.{lost_by, client_losses, phase_losses};

use mf_lines::{Act, Client, Command, Item};
use mf_places::Losses;
use std::alloc::AllocError;

// Adds a command, where it is a lose line.
fn add_command(losses: &mut Losses, command: Command) -> Result<(), AllocError>
    ensures { OnOk result (losses.new ≡ losses.old ++ lost_by command.line command.act) }
{
    match command.act {
        Act::Lose(server) => losses.push(command.line, server),
        _ => Ok(()),
    }
}

// Adds the lose lines of a client.
fn add_client(losses: &mut Losses, client: &Client) -> Result<(), AllocError>
    ensures { OnOk result (losses.new ≡ losses.old ++ client_losses client.now) }
{
    for command in client.commands.as_slice() {
        add_command(losses, *command)?;
    }
    Ok(())
}

// Adds the lose lines of a phase, whose clients these are.
fn add_phase(losses: &mut Losses, clients: &[Client]) -> Result<(), AllocError>
    ensures { OnOk result (losses.new ≡ losses.old ++ phase_losses clients.now) }
{
    for client in clients {
        add_client(losses, client)?;
    }
    Ok(())
}

/// Adds the lose lines of the first phases, so many of them. Fails only where memory runs out.
pub fn add_phases(losses: &mut Losses, items: &[Item], many: u32) -> Result<(), AllocError>
    ensures { OnOk result
        (losses.new ≡ losses.old ++ flat_map phase_losses (take many (phases_in items.now))) }
{
    let mut left = many;
    for item in items {
        match item {
            Item::Tick(_) => {}
            Item::Phase(clients) => {
                if left == 0 {
                    return Ok(());
                }
                left -= 1;
                add_phase(losses, clients.as_slice())?;
            }
        }
    }
    Ok(())
}
