//! Theorems about hosts of many agents; nothing here runs.

ghost use Rattle.std.specs.Prelude.{◌≡◌, ℕ, List, slice_get, Some};
ghost use Rattle.word_ops.specs.Rights.{Rights};
ghost use Rattle.alpha_turns.specs.declared.turns.Turn.{Turn};
ghost use Rattle.alpha_turns.specs.Parts.{World, turns_in};
ghost use Rattle.agent_host.specs.Agents.{HostedView};
ghost use Rattle.agent_host.specs.Hosts.{IsHostedAt};
ghost use Rattle.agent_host.specs.Worlds.{world_of, AreHosted, IsSeenAs, TakesTurns, ReadsAsParts};

/// States that a host is a world of alpha_turns, in which all agents share one memory. Every host
/// has rights under which it is seen so (`some`): those that fit its agents. Under all such rights
/// it is seen as the world of its parts, one after another (`seen`). Calls of `turn`, whatever the
/// list of turns, lead to a host that is seen as the world after these turns (`turns`). So the
/// world's memory after the turns reads in each part as the agent's own quadwords (`memory`).
///
/// `part_laws` of alpha_turns says where a world's turns lead: each agent is where one run alone
/// takes it.
pub fn world_laws()
    ensures some { (host : List HostedView)
        → ((a : ℕ) (m : HostedView) → slice_get host a ≡ Some m → IsHostedAt a m)
        → (rights : ℕ → Rights) × AreHosted rights host }
    ensures seen { (host : List HostedView) (rights : ℕ → Rights) → AreHosted rights host
        → IsSeenAs host rights (world_of rights host) }
    ensures turns { (turns : List Turn) (old new : List HostedView) (rights : ℕ → Rights)
        (world : World) → TakesTurns turns old new → IsSeenAs old rights world
        → IsSeenAs new rights (turns_in turns world) }
    ensures memory { (turns : List Turn) (old new : List HostedView) (rights : ℕ → Rights)
        → AreHosted rights old → TakesTurns turns old new
        → ReadsAsParts new (turns_in turns (world_of rights old)) }
{}
