mod failing;
mod merging;
mod picking;
mod refusing;
mod storing;
