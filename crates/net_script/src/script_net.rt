//! The network that plays a script.

ghost use Rattle.std.specs.Prelude.{◌≡◌, ◌+◌, ◌-◌, ◌^◌, ◌<◌, ◌≤◌, ◌++◌, ◌∷◌, [], ℕ, Some, None, Err, length, IfOk, OnOk, OnErr};
ghost use Rattle.std.specs.Option.{ForSome};
ghost use Rattle.arrival_player.specs.Played.{flow_at};
ghost use Rattle.bd_dev.specs.Faults.{HasCauseOr};
ghost use Rattle.bd_dev.specs.Net.{Answers, Closes, IsEarliest, Opens, Posts};
ghost use Rattle.net_script.specs.Feeds.{script_rows};
ghost use Rattle.net_script.specs.Serving.{first_lacking, served};
ghost use Rattle.net_script.specs.declared.fault.ScriptFault.TheVariants.{Bad, Media as MediaFault};
ghost use Rattle.net_script.specs.declared.fault.ScriptKind.{ScriptKind};
ghost use Rattle.net_script.specs.declared.fault.ScriptKind.TheVariants.{NoBody};

use crate::fault::ScriptFault;
use crate::script::Script;
use crate::script_feeds::ScriptFeeds;
use crate::serving::serve;
use arrival_player::Player;
use bd_dev::{DevFault, Media, Net, Next};
use bd_text::Mac;
use std::alloc::Global;
use std::marker::Model;

/// A network that plays a script. It never fails, and what is sent changes nothing of what comes.
#[derive(Drop)]
pub struct ScriptNet {
    player: Player<ScriptFeeds>,
}

impl Model for ScriptNet {
    ghost use Rattle.arrival_player.specs.Played.{Played};

    ghost Value = { Played };

    ghost view = { λ n. n.player };
}

impl ScriptNet {
    /// A network at time 0 that plays the script, whose files are read now, from the volume `net` of the media. `mac`
    /// is that of the first interface, from which those of the others follow.
    ///
    /// Answers `NoBody` for the first line whose file is not there or has more than 268,435,456 bytes, `Media` where
    /// the media failed, and counted it, or `Memory`.
    pub fn new<M: Media>(
        alloc: Global,
        script: Script,
        mac: Mac,
        media: &mut M,
    ) -> Result<ScriptNet, ScriptFault>
        ensures begins { IfOk result (λ net. (net.time ≡ 0) × (net.flows ≡ [])) }
        ensures plays { IfOk result (λ net. ForSome (M.content media.old) (λ volumes.
            net.rows ≡ script_rows (served volumes script))) }
        ensures bodies { IfOk result (λ _. ForSome (M.content media.old) (λ volumes.
            first_lacking volumes script ≡ None)) }
        ensures bad { (line : ℕ) (kind : ScriptKind) → result ≡ Err (Bad line kind)
            → (kind ≡ NoBody)
            × ForSome (M.content media.old) (λ volumes. first_lacking volumes script ≡ Some line) }
        ensures kept { M.content media.new ≡ M.content media.old }
        ensures cause { HasCauseOr MediaFault (M.faults media.old) (M.faults media.new) result }
    {
        let _mac = mac;
        let feeds = serve(alloc, media, script.lines)?;
        Ok(ScriptNet {
            player: Player::new(alloc, ScriptFeeds::new(feeds), false),
        })
    }
}

impl Net for ScriptNet {
    ghost use Rattle.arrival_player.specs.Played.{flow_past};

    ghost rows = { λ n. Some n.rows };

    ghost time = { λ n. n.time };

    ghost opened = { λ n. length n.flows };

    ghost open_flow = { λ n. flow_at n.flows };

    ghost sent = { λ _. None };

    ghost faults = { λ _. 0 };

    fn now(&self) -> u64 {
        self.player.now()
    }

    fn open(&mut self, round: u32, label: &[u8]) -> Result<u32, DevFault> {
        let number = self.player.open(round, label)?;
        Ok(number)
    }

    fn send(&mut self, _flow: u32, _port: u16, _bytes: &[u8]) -> Result<(), DevFault> {
        Ok(())
    }

    /// Of arrivals of one time, that of the flow opened first.
    fn next(&mut self, until: u64) -> Result<Next, DevFault> {
        let next = self.player.next(until)?;
        Ok(next)
    }

    fn close(&mut self, flow: u32) {
        self.player.close(flow);
    }

    ghost not_yet = { λ net n past. flow_past net.flows n past };
}
