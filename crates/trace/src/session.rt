// A machine at whichever phase it is.
use controller::Controller;
use machine::{LaidOut, Machine, Running};
use spl::{HeadPolicy, RootPolicy, Spl};
use stage::Stage;
use stall::Stall;

// The head's stage on a controller.
pub type HeadOn<C> = Stall<Spl<HeadPolicy, C>>;

// The root's stage on a controller.
pub type RootOn<C> = Stall<Spl<RootPolicy, C>>;

// The machine before its start or after it.
#[derive(Drop)]
pub enum Session<H: Controller, A: Stage, B: Stage> {
    LaidOut(Machine<LaidOut, H, A, B>),
    Running(Machine<Running, H, A, B>),
}
