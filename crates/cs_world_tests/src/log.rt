mod appending;
mod memory;
mod opening;
mod reading;
mod refusing;
