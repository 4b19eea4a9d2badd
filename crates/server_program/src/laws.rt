//! What the statuses and the texts mean together.
ghost use Rattle.std.specs.Prelude.{◌≡◌, ◌≤◌, ◌⊎◌, ℕ, List, Ok, Some, length};
ghost use Rattle.service_core.specs.Counts.{Rose};
ghost use Rattle.script.specs.Script.{Plan, plan_of};
ghost use Rattle.server.specs.Starting.{RoseBy};
ghost use Rattle.listening.specs.Listening.{Listened};
ghost use Rattle.replaying.specs.Reported.{IsReportOf};
ghost use Rattle.replaying.specs.Summary.{IsSummaryOf};
ghost use Rattle.server_program.specs.Forms.{form_of};
ghost use Rattle.server_program.specs.Statuses.{IsHeard, Says, SaysOfReplay, Starts, Written, most_of_script};
ghost use Rattle.server_program.specs.Stream.{Gains};
ghost use Rattle.server_program.specs.declared.form.Form.TheVariants.{Generate, Listen};

use crate::io::{Sink, Source};
use server_bind::Binder;
use server_jobs::Spawner;
use server_run::Listener;

/// A good script that names a listener, under a policy that is not refused, is served: where no call of the source, of the
/// sink and of the spawner fails, `run` answers 0 to the word `replay`, and the sink got the script's report, or memory ran out.
pub fn a_good_script_is_served<So: Source, Si: Sink, Sp: Spawner>()
    ensures { (source source_after : So) (sink sink_after : Si) (spawner spawner_after : Sp) (text : List ℕ) (plan : Plan) (status result : ℕ)
        (says : SaysOfReplay (So.remaining source) (So.remaining source_after) (Rose (So.faults source) (So.faults source_after))
        (λ n. RoseBy n (Sp.starts spawner) (Sp.starts spawner_after)) (Rose (Sp.refusals spawner) (Sp.refusals spawner_after)) status text)
        → Written (Si.got sink) (Si.got sink_after) (Rose (Si.faults sink) (Si.faults sink_after)) status text result
        → length says.bytes ≤ most_of_script → plan_of says.bytes ≡ Ok plan → Starts plan
        → (Rose (So.faults source) (So.faults source_after) → ⊥) → (Rose (Si.faults sink) (Si.faults sink_after) → ⊥)
        → (Rose (Sp.refusals spawner) (Sp.refusals spawner_after) → ⊥)
        → ((result ≡ 0) × Gains (Si.got sink) text (Si.got sink_after) × IsReportOf plan text) ⊎ (result ≡ 7) }
{}

/// So are connections that are made: where no call of the sink and of the spawner fails, `run` answers 0 to `generate`, and the
/// sink got the summary of these connections, or memory ran out.
pub fn connections_that_are_made_are_served<So, Si, Sp, Bi>()
where
    So: Source,
    Si: Sink,
    Sp: Spawner,
    Bi: Binder<Listener: Listener>,
    ensures { (source source_after : So) (sink sink_after : Si) (spawner spawner_after : Sp) (binder binder_after : Bi) (words : List (List ℕ)) (count seed : ℕ) (text : List ℕ) (status result : ℕ)
        → Says (form_of words) (So.remaining source) (So.remaining source_after) (Rose (So.faults source) (So.faults source_after))
        (λ n. RoseBy n (Sp.starts spawner) (Sp.starts spawner_after)) (Rose (Sp.refusals spawner) (Sp.refusals spawner_after))
        (binder_after ≡ binder) (Bi.refusals binder_after ≡ Bi.refusals binder) (Rose (Bi.refusals binder) (Bi.refusals binder_after))
        (Listened Bi.stock Bi.Listener.left Bi.Listener.rest Bi.Listener.Link.Link binder binder_after) status text
        → Written (Si.got sink) (Si.got sink_after) (Rose (Si.faults sink) (Si.faults sink_after)) status text result
        → form_of words ≡ Some (Generate count seed) → (Rose (Si.faults sink) (Si.faults sink_after) → ⊥)
        → (Rose (Sp.refusals spawner) (Sp.refusals spawner_after) → ⊥)
        → ((result ≡ 0) × Gains (Si.got sink) text (Si.got sink_after) × IsSummaryOf count seed text) ⊎ (result ≡ 7) }
{}

/// So are connections that come to an address: where no call of the sink, of the spawner and of the binder fails, `run` answers 0
/// to `listen`, and the sink got the summary of what a bound listener gave, or memory ran out.
pub fn connections_that_come_are_served<So, Si, Sp, Bi>()
where
    So: Source,
    Si: Sink,
    Sp: Spawner,
    Bi: Binder<Listener: Listener>,
    ensures { (source source_after : So) (sink sink_after : Si) (spawner spawner_after : Sp) (binder binder_after : Bi) (words : List (List ℕ)) (limit : ℕ) (text : List ℕ) (status result : ℕ)
        → Says (form_of words) (So.remaining source) (So.remaining source_after) (Rose (So.faults source) (So.faults source_after))
        (λ n. RoseBy n (Sp.starts spawner) (Sp.starts spawner_after)) (Rose (Sp.refusals spawner) (Sp.refusals spawner_after))
        (binder_after ≡ binder) (Bi.refusals binder_after ≡ Bi.refusals binder) (Rose (Bi.refusals binder) (Bi.refusals binder_after))
        (Listened Bi.stock Bi.Listener.left Bi.Listener.rest Bi.Listener.Link.Link binder binder_after) status text
        → Written (Si.got sink) (Si.got sink_after) (Rose (Si.faults sink) (Si.faults sink_after)) status text result
        → form_of words ≡ Some (Listen limit) → (Rose (Si.faults sink) (Si.faults sink_after) → ⊥)
        → (Rose (Sp.refusals spawner) (Sp.refusals spawner_after) → ⊥) → (Rose (Bi.refusals binder) (Bi.refusals binder_after) → ⊥)
        → ((result ≡ 0) × Gains (Si.got sink) text (Si.got sink_after)
        × IsHeard (Listened Bi.stock Bi.Listener.left Bi.Listener.rest Bi.Listener.Link.Link binder binder_after limit) text) ⊎ (result ≡ 7) }
{}
