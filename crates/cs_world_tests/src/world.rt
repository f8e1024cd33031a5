mod again;
mod given;
mod memory;
mod refused;
mod running;
