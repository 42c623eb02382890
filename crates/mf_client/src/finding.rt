//! Finding a client in a script.

ghost use Rattle.std.specs.Prelude.{◌≡◌};
ghost use Rattle.mf_script.specs.Sound.{IsSound};
ghost use Rattle.mf_client.specs.Clients.{HasClient, commands_of};

use mf_script::{Command, Script};

// The commands of a client, in order. What is told besides is what every script keeps.
pub(crate) fn commands_of(script: &Script, phase: u32, client: u32) -> &[Command]
    requires { HasClient script.now phase client }
    ensures value { result.now ≡ commands_of script.now phase client }
    ensures sound { IsSound script.now }
{
    let _items = script.items();
    let clients = script.clients(phase);
    clients[(client - 1) as usize].commands.as_slice()
}
