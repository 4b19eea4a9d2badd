//! A listener that a binder gives.
ghost use Rattle.std.specs.Prelude.{◌≡◌, Err, IfOk, IfErr, OnOk};
ghost use Rattle.service_core.specs.Counts.{Rose};
ghost use Rattle.server_run.specs.Listener.{IsTakenFrom};
ghost use Rattle.listening.specs.Listening.{IsUnbound};
ghost use Rattle.listening.specs.declared.listen_error.ListenError.TheVariants.{Memory};

use crate::listen_error::ListenError;
use server::BindError;
use server_bind::Binder;
use server_run::Host;
use std::alloc::Global;

/// The listener at a TCP address.
pub(crate) fn bound_listener<Ho: Host, Bi: Binder>(
    rt: &Ho,
    alloc: Global,
    addr: &str,
    binder: &mut Bi,
) -> Result<Bi::Listener, ListenError>
    ensures first { IfOk result (λ listener. IsTakenFrom (Bi.stock binder.old) listener (Bi.stock binder.new)) }
    ensures unrefused { OnOk result (Bi.refusals binder.new ≡ Bi.refusals binder.old) }
    ensures memory { result ≡ Err Memory → Bi.refusals binder.new ≡ Bi.refusals binder.old }
    ensures unheard { IfErr result (IsUnbound (Rose (Bi.refusals binder.old) (Bi.refusals binder.new))) }
{
    let Ok(builder) = server::new(alloc) else {
        return Err(ListenError::Memory);
    };
    let mut listeners = Vec::new(alloc);
    match builder.bind(rt, binder, addr, &mut listeners) {
        Ok(_) => match listeners.pop() {
            Some(listener) => Ok(listener),
            None => unreachable!(),
        },
        Err(BindError::Refused) => Err(ListenError::Refused),
        Err(BindError::Memory) => Err(ListenError::Memory),
    }
}
