ghost use Rattle.std.specs.Prelude.{◌≡◌, IfOk};
ghost use Rattle.server.specs.Servers.{settings_of};
ghost use Rattle.server.specs.Settings.{default_settings};

use crate::builder::ServerBuilder;
use std::alloc::{AllocError, Global};

/// A builder with the default settings (`actix-server`'s `ServerBuilder::new`).
pub fn new(alloc: Global) -> Result<ServerBuilder, AllocError>
    ensures { IfOk result (λ builder. settings_of builder ≡ default_settings) }
{
    ServerBuilder::new(alloc)
}
