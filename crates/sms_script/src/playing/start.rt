//! The network of a script.

ghost use Rattle.std.specs.Prelude.{◌≡◌, IfOk, IfErr, OnOk, OnErr, None};
ghost use Rattle.sms_script.specs.Inside.Standing.{OpensAt, StartsAt};
ghost use Rattle.sms_script.specs.declared.fault.PlayFault.TheVariants.{Memory};

use crate::fault::PlayFault;
use crate::meaning::Event;
use crate::playing::network::Network;
use crate::script::Script;
use std::alloc::Global;

/// The network that there is, or one that begins as the script has set. What the tick answers with
/// which a clock starts is written in the place of the words that stood there.
pub fn started<N: Network>(
    alloc: Global,
    script: &Script,
    network: Option<N>,
    words: &mut Vec<u8>,
) -> Result<N, PlayFault>
    ensures there { IfOk result (λ n. OpensAt N.conduct script.now network n) }
    ensures memory { IfErr result (λ e. e ≡ Memory) }
    ensures unbegun { OnErr result (network ≡ None) }
{
    match network {
        Some(network) => Ok(network),
        None => {
            let mut network = N::begin(alloc, script.limits(), script.addresses())?;
            if let Some(seconds) = script.clock() {
                network.step(&Event::Tick(seconds), words)?;
            }
            Ok(network)
        }
    }
}

/// Makes the network, where there is none: one that begins as the script has set.
pub fn start<N: Network>(
    alloc: Global,
    script: &Script,
    network: &mut Option<N>,
    words: &mut Vec<u8>,
) -> Result<(), PlayFault>
    ensures there { OnOk result (StartsAt N.conduct script.now network.old network.new) }
    ensures memory { IfErr result (λ e. e ≡ Memory) }
{
    if network.is_none() {
        *network = Some(started(alloc, script, None, words)?);
    }
    Ok(())
}
