//! The day of a service: a trace with its report.

/// 25 lines, 991 bytes. The lines 19, 22 and 25 are collections; they end at the bytes 799, 892 and 991.
pub const DAY: &[u8] = b"\
    {\"op\":\"assert-instances\",\"type\":\"Config\",\"limit\":1}\n\
    {\"op\":\"alloc\",\"id\":1,\"type\":\"Config\",\"slots\":0}\n\
    {\"op\":\"root\",\"name\":\"config\",\"to\":1}\n\
    {\"op\":\"alloc\",\"id\":2,\"type\":\"OrderBook\",\"slots\":3}\n\
    {\"op\":\"root\",\"name\":\"book\",\"to\":2}\n\
    {\"op\":\"alloc\",\"id\":3,\"type\":\"EventBus\",\"slots\":2}\n\
    {\"op\":\"root\",\"name\":\"bus\",\"to\":3}\n\
    {\"op\":\"start-region\",\"thread\":0}\n\
    {\"op\":\"alloc\",\"id\":10,\"type\":\"Session\",\"slots\":2}\n\
    {\"op\":\"alloc\",\"id\":11,\"type\":\"Listener\",\"slots\":1}\n\
    {\"op\":\"root\",\"name\":\"session\",\"to\":10}\n\
    {\"op\":\"store\",\"at\":10,\"slot\":0,\"to\":11}\n\
    {\"op\":\"store\",\"at\":11,\"slot\":0,\"to\":10}\n\
    {\"op\":\"store\",\"at\":3,\"slot\":0,\"to\":11}\n\
    {\"op\":\"alloc\",\"id\":12,\"type\":\"Order\",\"slots\":0,\"thread\":1}\n\
    {\"op\":\"store\",\"at\":2,\"slot\":0,\"to\":12}\n\
    {\"op\":\"assert-ownedby\",\"owner\":2,\"ownee\":12}\n\
    {\"op\":\"store\",\"at\":10,\"slot\":1,\"to\":12}\n\
    {\"op\":\"collect\"}\n\
    {\"op\":\"root\",\"name\":\"session\",\"to\":null}\n\
    {\"op\":\"assert-alldead\",\"thread\":0}\n\
    {\"op\":\"collect\"}\n\
    {\"op\":\"store\",\"at\":3,\"slot\":0,\"to\":null}\n\
    {\"op\":\"store\",\"at\":2,\"slot\":0,\"to\":null}\n\
    {\"op\":\"collect\"}\n\
";

/// The texts of the collections have 29, 176 and 29 bytes, and the end line has 23: 257 in all.
pub const REPORT: &[u8] = b"\
    gc 1 live 6 traced 6 freed 0\n\
    gc 2 live 6 traced 6 freed 0\n\
    gc 2 dead 10 Session: root bus -> 3 EventBus [0] -> 11 Listener [0] -> 10 Session\n\
    gc 2 dead 11 Listener: root bus -> 3 EventBus [0] -> 11 Listener\n\
    gc 3 live 6 traced 3 freed 3\n\
    end gcs 3 violations 2\n";
