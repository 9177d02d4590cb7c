// Where datagrams and ticks come from: any source, one in memory, and a UDP socket, with its wire.
pub mod mem_source;
pub mod source;
pub mod udp;
