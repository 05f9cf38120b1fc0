//! What factories make.
ghost use Rattle.std.specs.Prelude.{◌≡◌};

/// A handle of a port: that of single values, or the same port's handle of slices. A factory makes
/// either.
///
/// Example (`crates/iox2_pubsub/src/slice/views.rt`):
///
/// ```rust
/// fn of_port(port: crate::Publisher) -> Publisher {
///     Publisher::new(port)
/// }
/// ```
///
/// This library's own, where iceoryx2's factories know the type of the payload.
pub trait PortHandle<P> {
    // The handle of single values.
    ghost as_port: { Self → P };

    /// The handle that this is in the view of single values.
    fn of_port(port: P) -> Self
        ensures { as_port result ≡ port };
}

impl<P> PortHandle<P> for P {
    ghost as_port = { λ port. port };

    #[inline(always)]
    fn of_port(port: P) -> P {
        port
    }
}
